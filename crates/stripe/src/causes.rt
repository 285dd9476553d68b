// Causes and the layers that show them.
ghost use Rattle.std.specs.Prelude.{◌≡◌};
ghost use Rattle.stripe.specs.Findings.{cause_of, layer_of};

use crate::shapes::{Cause, Layer};
use block::Defect;

impl From<Defect> for Cause {
    ghost from_gives = { λ defect cause. cause ≡ cause_of defect };

    fn from(defect: Defect) -> Cause {
        match defect {
            Defect::Blind => Cause::Blind,
            Defect::Broken => Cause::Broken,
            Defect::Foreign => Cause::Foreign,
        }
    }
}

impl Cause {
    // The layer that shows the cause.
    pub fn layer(self) -> Layer
        ensures { result ≡ layer_of self }
    {
        match self {
            Cause::Blind => Layer::Card,
            Cause::Broken => Layer::Checksum,
            Cause::Foreign => Layer::Identity,
            Cause::Behind => Layer::Version,
        }
    }
}
