//! The pages that have content.

ghost use Rattle.std.specs.Prelude.{◌≡◌, ◌+◌, ◌<◌, ◌↔◌, ℕ, Option, IsTrue, is_some};
ghost use Rattle.pmem_model.specs.Words.{Word};
ghost use Rattle.object_records.specs.Records.{record_at};
ghost use Rattle.object_records.specs.Pages as contents;
ghost use Rattle.page_store.specs.Known.{Open};
ghost use Rattle.page_store.specs.Shows.{PagesShow};
ghost use Rattle.page_store.specs.Stages.{stage_of, IsAsRecovered, IsSettled};
ghost use Rattle.page_store.specs.Back.{filled};
ghost use Rattle.tree_restore.specs.Contents.{first_of};

use kobj_table::Objects;
use object_records::is_content;
use page_store::{PageStage, PageStore};
use sls_base::{PAGES, PageNo};

/// Forgets the pages on which no object has content. The others run as they are saved.
pub fn forget_others(pages: &mut PageStore, objects: &Objects)
    ensures recovered { (page : ℕ) → page < PAGES → IsAsRecovered (stage_of pages.old page)
        → IsAsRecovered (stage_of pages.new page) }
    ensures shows { (f : ℕ → Word) (v : ℕ) (saved : ℕ → Option (ℕ → ℕ))
        → ((page : ℕ) → page < PAGES → is_some (saved page) ≡ contents.is_content (record_at objects.now) page)
        → ((page : ℕ) → page < PAGES → IsSettled (stage_of pages.old page))
        → PagesShow pages.old f v saved (filled saved f) Open → PagesShow pages.new f v saved saved Open }
{
    page_store::laws::page_versions();
    for page in 0..PAGES {
        forget_other(pages, objects, page as PageNo);
    }
}

/// Forgets a page on which no object has content. So it goes from one page to the next.
fn forget_other(pages: &mut PageStore, objects: &Objects, page: PageNo)
    requires { page < PAGES }
    ensures others { (i : ℕ) → IsSettled (stage_of pages.old i) → IsSettled (stage_of pages.new i) }
    ensures recovered { (i : ℕ) → IsAsRecovered (stage_of pages.old i) → IsAsRecovered (stage_of pages.new i) }
    ensures shows { (f : ℕ → Word) (v : ℕ) (saved : ℕ → Option (ℕ → ℕ))
        → is_some (saved page) ≡ contents.is_content (record_at objects.now) page
        → IsSettled (stage_of pages.old page)
        → PagesShow pages.old f v saved (first_of page saved (filled saved f)) Open
        → PagesShow pages.new f v saved (first_of (page + 1) saved (filled saved f)) Open }
{
    page_store::laws::page_versions();
    if is_content(objects, page) {
        return;
    }
    // No core prepares a page while recovery is under way.
    if is_settled(pages.stage(page)) {
        pages.forget(page);
    }
}

/// Whether a page at this stage may be forgotten.
fn is_settled(stage: PageStage) -> bool
    ensures { IsTrue result ↔ IsSettled stage }
{
    !matches!(stage, PageStage::Preparing(_, _))
}
