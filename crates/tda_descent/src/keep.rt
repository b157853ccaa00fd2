// Handing fits on.
ghost use Rattle.std.specs.Prelude.{◌≡◌, true, false, OnOk, OnErr, IfErr};
ghost use Rattle.std.specs.Fn.{CalledAt, TakesAt};
ghost use Rattle.tda_descent.specs.declared.fit.DescentStop.TheVariants.{Stopped};

use crate::fit::{DescentStop, Fit};

// Hands a fit on. `Stopped` where it is refused.
pub(crate) fn hand_on<K: FnMut(&Fit) -> bool>(fit: &Fit, keep: &mut K) -> Result<(), DescentStop>
    requires { TakesAt K.FnMut keep.old fit.now }
    ensures goes_on { OnOk result (CalledAt K.FnMut keep.old fit.now true keep.new) }
    ensures refused { OnErr result (CalledAt K.FnMut keep.old fit.now false keep.new) }
    ensures stopped { IfErr result (λ why. why ≡ Stopped) }
{
    if keep(fit) {
        Ok(())
    } else {
        Err(DescentStop::Stopped)
    }
}
