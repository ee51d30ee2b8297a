//! Commands that load a file onto the selected board.
ghost use Rattle.std.specs.Prelude.{◌≡◌, ◌≤◌, length, true, false, IsSome};
ghost use Rattle.std.specs.Option.{ForSome};
ghost use Rattle.lab_state.specs.One.{view_of};
ghost use Rattle.monitor.specs.Answer.{loads};
ghost use Rattle.monitor.specs.Selected as selected;
ghost use Rattle.monitor.specs.State.{LinePlace};
ghost use Rattle.monitor.specs.Inner.Ruling.{IsDone, IsTold, Leaves, loaded_by};

use crate::images::{Format, read_image};
use crate::monitor::Monitor;
use crate::stop::Stop;
use dev_core::Device;
use lab_io::{Files, read_file};
use lab_num::BoardNo;

/// What a file is loaded as.
#[derive(Clone, Copy)]
pub(crate) enum Load {
    /// An image of this format.
    Image(Format),
    /// Its bytes, from this address on.
    Bytes(u32),
}

impl<D: Device> Monitor<D> {
    /// Loads a file onto the selected board.
    pub(crate) fn load<F: Files>(
        &mut self,
        files: &mut F,
        load: Load,
        path: &str,
    ) -> Result<Vec<u8>, Stop>
        requires unspent { self.old.spent ≡ false }
        requires waits { self.old.ended ≡ true }
        ensures { IsDone F.Files
            (λ held place. loads held place path.now (selected.equipped self.old.state)
            (loaded_by load self.old.state place))
            result self.old self.new files.old files.new }
    {
        let b = self.equipped()?;
        let bytes = read_file(self.alloc, files, path)?;
        self.load_bytes(b, load, &bytes)
    }

    /// Loads the bytes of a file.
    fn load_bytes(&mut self, b: BoardNo, load: Load, bytes: &[u8]) -> Result<Vec<u8>, Stop>
        requires unspent { self.old.spent ≡ false }
        requires waits { self.old.ended ≡ true }
        requires has_plan { IsSome (view_of self.old.state.lab b.0) }
        requires few { length bytes.now ≤ 16777216 }
        ensures { (place : LinePlace) → ForSome (view_of self.old.state.lab b.0) (λ v.
            IsTold place
            (loaded_by load self.old.state place (record { number = b.0; view = v }) bytes.now)
            result self.new.state
            × Leaves result self.old self.new) }
    {
        match load {
            Load::Image(format) => {
                let image = read_image(self.alloc, format, bytes)?;
                self.load_image(b, &image)
            }
            Load::Bytes(at) => self.write_bytes(b, at, bytes),
        }
    }
}
