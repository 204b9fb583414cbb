ghost use Rattle.std.specs.Prelude.{◌≡◌};
ghost use Rattle.diagram.specs.Views.{view, room};

use super::Table;

impl Table {
    // How many places are in use.
    pub fn used(&self) -> usize
        ensures { result ≡ (view self.now).used }
    {
        self.places.len()
    }

    // How many places there are.
    pub fn room(&self) -> usize
        ensures { result ≡ room self.now }
    {
        self.places.room()
    }

    pub fn inputs(&self) -> u8
        ensures { result ≡ (view self.now).inputs }
    {
        self.inputs
    }
}
