//! How far a page came between two commits.

ghost use Rattle.std.specs.Prelude.{◌≡◌};
ghost use Rattle.page_store.specs.Stages.{after, state_at};

use sls_base::CoreNo;

/// What may be done with a page.
#[derive(Clone, Copy, PartialEq, Eq, Debug)]
pub enum PageState {
    /// It is zero, whatever its frames hold. It is prepared before it is stored to.
    Fresh,
    /// Its runtime frame is its content of the committed version. It is prepared before it is stored to.
    Protected,
    /// It may be stored to.
    Writable,
    /// Its runtime frame is lent. No page is so as yet.
    Away,
    /// This core prepares it.
    Preparing(CoreNo),
}

/// How far a page came since the last commit.
#[derive(Clone, Copy, PartialEq, Eq, Debug)]
pub enum PageStage {
    Fresh,
    Protected,
    /// This core has copied the runtime frame to a slot. What it does next is named.
    Preparing(CoreNo, Preparation),
    Writable(Origin, Writes),
}

/// The operation by which the preparation of a page goes on, after the copy of its runtime frame.
#[derive(Clone, Copy, PartialEq, Eq, Debug)]
pub enum Preparation {
    FlushCopy,
    FenceCopy,
    StoreTag,
    FlushTag,
    FenceTag,
}

/// Where a writable page's content of the committed version is.
#[derive(Clone, Copy, PartialEq, Eq, Debug)]
pub enum Origin {
    /// Nowhere: the page was fresh.
    Zeros,
    /// In its slot, which has the tag of the version.
    Copy,
}

/// What happened to a writable page's runtime frame since the page was prepared.
#[derive(Clone, Copy, PartialEq, Eq, Debug)]
pub enum Writes {
    Nothing,
    /// It was stored to.
    Stored,
    /// It was stored to, and the leader has flushed it since.
    Flushed,
}

impl PageStage {
    /// What may be done with the page.
    pub fn state(self) -> PageState
        ensures { result ≡ state_at self }
    {
        match self {
            PageStage::Fresh => PageState::Fresh,
            PageStage::Protected => PageState::Protected,
            PageStage::Preparing(core, _) => PageState::Preparing(core),
            PageStage::Writable(_, _) => PageState::Writable,
        }
    }

    /// The stage after a commit. A page to which nothing was stored stays fresh.
    pub fn after_commit(self) -> PageStage
        ensures { result ≡ after self }
    {
        match self {
            PageStage::Fresh | PageStage::Writable(Origin::Zeros, Writes::Nothing) => {
                PageStage::Fresh
            }
            _ => PageStage::Protected,
        }
    }
}
