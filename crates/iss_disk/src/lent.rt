// A mutable borrow of a disk is a disk.
use crate::{Disk, EndError, Failed, NoMemory};

impl<D: Disk> Disk for &mut D {
    ghost use Rattle.iss_disk.specs.Calls.{lent_device};

    ghost state = { λ disk. lent_device disk.ghost_name (D.state disk.now) };

    fn attach(&mut self, name: &str) -> Result<(), EndError> {
        (**self).attach(name)
    }

    fn reserve(&mut self, calls: u64, bytes: u64) -> Result<(), NoMemory> {
        (**self).reserve(calls, bytes)
    }

    fn length(&mut self) -> Result<u64, Failed> {
        (**self).length()
    }

    fn read_at(&mut self, at: u64, into: &mut [u8]) -> Result<usize, Failed> {
        (**self).read_at(at, into)
    }

    fn write_at(&mut self, at: u64, bytes: &[u8]) -> Result<(), Failed> {
        (**self).write_at(at, bytes)
    }

    fn cut(&mut self, len: u64) -> Result<(), Failed> {
        (**self).cut(len)
    }

    fn sync(&mut self) -> Result<(), Failed> {
        (**self).sync()
    }

    ghost here = { λ disk. D.here disk.now };

    ghost read_is_image = { λ disk. D.read_is_image disk.now };
}
