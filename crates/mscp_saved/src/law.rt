// What is true of saving and restoring.

ghost use Rattle.mscp_saved.specs.Faithful.{RestoringIsFaithful};

use mscp_controller::Picker;

/// A controller over this picker is restored from the bytes that it is saved as: all that callers see of it is as it
/// was. And what is restored from bytes is saved as those bytes. So whatever is promised of a controller, as by
/// `controllers_keep_the_promise`, is promised of one that was saved and restored, since it is the same value.
pub fn restoring_is_faithful<K: Picker>(picker: &K)
    ensures { RestoringIsFaithful picker.now }
{}
