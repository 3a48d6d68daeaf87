//! The record of a notification.

ghost use Rattle.std.specs.Prelude.{◌≡◌, ◌+◌, ◌<◌, ◌↔◌, IsTrue, ℕ, slice_index};
ghost use Rattle.kobj_codec.specs.declared.obj.NotificationRec.{NotificationRec};
ghost use Rattle.kobj_codec.specs.declared.obj.Obj.TheVariants as objs;
ghost use Rattle.kobj_codec.specs.Objects.{IsNotification};
ghost use Rattle.kobj_codec.specs.Records as records;
ghost use Rattle.kobj_codec.specs.Records.{IsRecord};

use crate::kinds::NOTIFICATION_KIND;
use crate::list::{is_list, list_word, read_list};
use crate::obj::NotificationRec;
use pmem_layout::SLOT_WORDS;

/// Where the count begins in word 0.
const COUNT_AT: u32 = 32;

/// Whether a notification has a record.
pub fn is_notification(notification: &NotificationRec) -> bool
    ensures { IsTrue result ↔ IsNotification notification.now }
{
    // Its type keeps the count in range.
    let _count = notification.count;
    is_list(notification.waiters.as_slice())
}

/// Word 0 of a notification's record.
pub fn notification_head(notification: &NotificationRec) -> u64
    ensures { result ≡ records.head_word (objs.Notification notification.now) }
{
    u64::from(NOTIFICATION_KIND) | u64::from(notification.count) << COUNT_AT
}

/// Word i + 1 of a notification's record.
pub fn notification_word(notification: &NotificationRec, i: usize) -> u64
    requires { i + 1 < SLOT_WORDS }
    ensures { result ≡ records.word_behind (objs.Notification notification.now) i }
{
    list_word(notification.waiters.as_slice(), i)
}

/// The notification of a record.
pub fn read_notification(words: &[u64; SLOT_WORDS]) -> NotificationRec
    ensures { (notification : NotificationRec) → IsNotification notification
        → IsRecord (slice_index words.now) (objs.Notification notification) → result ≡ notification }
{
    NotificationRec {
        count: (words[0] >> COUNT_AT) as u32,
        waiters: read_list(words, 1),
    }
}
