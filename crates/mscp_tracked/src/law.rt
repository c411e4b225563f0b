// What is true of the serials and the cookies of every tracked controller.

ghost use Rattle.mscp_tracked.specs.Calls.{SerialsAreKept};
ghost use Rattle.mscp_tracked.specs.Cookied.{CookiesAreKept};

use mscp_controller::Picker;

/// Whatever is called of a tracked controller over this picker, restores of what was just saved too, while its count of
/// beginnings and the calls are together below 2^64: two begins that tell one serial tell the same step, and no step,
/// no ABORT of its command and no reset lies between them. A finish by a serial happens exactly if none of these came
/// since a begin told it, and then serves the block that this begin told. One that fails is as if nobody had called it.
pub fn serials_are_kept<K: Picker>(picker: &K)
    ensures { SerialsAreKept (K.picks picker.now) picker.now }
{}

/// Whatever is called of a new tracked controller over this picker: each begin, each finish and step, and each end that
/// is looked at or taken is told with the cookie that was sent with the last message of its command's connection and
/// number that was taken in before.
pub fn cookies_are_kept<K: Picker>(picker: &K)
    ensures { CookiesAreKept (K.picks picker.now) picker.now }
{}
