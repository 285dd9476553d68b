// The guard that keeps mending off for the time of a look.
ghost use Rattle.std.specs.Prelude.{◌≡◌, Bool, false};

use runs::Switch;
use std::mem;

// Holds the switch while mending is off, and puts its former value back on every way out.
pub(crate) struct MendingOff<'a> {
    pub(crate) switch: &'a mut Switch,
    pub(crate) was: bool,
}

impl Drop for MendingOff<'_> {
    fn drop(self)
        ensures { self.exit.0.now.mending ≡ self.entry.was }
    {
        self.switch.mending = self.was;
        let MendingOff { switch: _, was: _ } = self;
    }
}

// Turns mending off; answers what it was.
pub(crate) fn turn_off(switch: &mut Switch) -> bool
    ensures was { result ≡ switch.old.mending }
    ensures off { switch.new.mending ≡ false }
{
    mem::replace(&mut switch.mending, false)
}
