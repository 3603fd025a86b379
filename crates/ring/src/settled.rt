// What has a node's settings: the settings themselves, and a station.
ghost use Rattle.std.specs.Prelude.{◌≡◌};
ghost use Rattle.node.specs.declared.types.Settings.{Settings as Chosen};

use crate::station::Station;
use node::Settings;

pub trait Settled {
    ghost settled: { Self → Chosen };

    fn settings(&self) -> Settings
        ensures { result ≡ settled self.now };
}

impl Settled for Settings {
    ghost settled = { λ s. s };

    fn settings(&self) -> Settings {
        *self
    }
}

impl<F> Settled for Station<F> {
    ghost settled = { λ s. s.values.settings };

    fn settings(&self) -> Settings {
        self.values.settings
    }
}
