//! A directory with several owners. Each node of a process has one, and all of them share what is computed.

ghost use Rattle.std.specs.Prelude.{◌≡◌, IfOk};
ghost use Rattle.iss_base.specs.Heights.{IsHeight};
ghost use Rattle.iss_keys.specs.Directories.{directory_of};
ghost use Rattle.iss_keys.specs.Internal.Homes.{directory_in};

use crate::directories::Directory;
use crate::heights::Height;
use crate::signing::NoMemory;
use std::alloc::Global;
use std::marker::Model;
use std::rc::Rc;

#[derive(Drop)]
enum Home {
    Shared(Rc<Directory>),
    // If the count of owners is at its maximum, an owner has a directory that shares nothing.
    Alone(Directory),
}

/// A directory of nodes and clients with any number of owners.
#[derive(Drop)]
pub struct SharedDirectory {
    alloc: Global,
    n: u32,
    clients: u32,
    height: Height,
    home: Home,
}

impl Model for SharedDirectory {
    ghost use Rattle.std.specs.Prelude.{◌≡◌};
    ghost use Rattle.iss_keys.specs.Directories.{DirectoryView, directory_of};

    ghost Value = { DirectoryView };

    ghost use Rattle.iss_keys.specs.Internal.Homes.{directory_in};

    ghost view = { λ d. directory_in d.home };

    ghost invariant = { λ d. directory_in d.home ≡ directory_of d.n d.clients d.height.levels };
}

impl SharedDirectory {
    /// The directory of nodes and clients whose keys all have one height, the same as `Directory::make`.
    pub fn make(
        alloc: Global,
        n: u32,
        clients: u32,
        height: u8,
    ) -> Result<SharedDirectory, NoMemory>
        requires height { IsHeight height }
        ensures { IfOk result (λ d. d ≡ directory_of n clients height) }
    {
        let directory = Directory::make(alloc, n, clients, height)?;
        let shared = Rc::new(alloc, directory)?;
        Ok(SharedDirectory {
            alloc,
            n,
            clients,
            height: Height { levels: height },
            home: Home::Shared(shared),
        })
    }

    /// One more owner. It allocates nothing.
    pub fn share(&self) -> SharedDirectory
        ensures { result ≡ self.now }
    {
        SharedDirectory {
            alloc: self.alloc,
            n: self.n,
            clients: self.clients,
            height: self.height,
            home: self.home_again(),
        }
    }

    /// The directory.
    pub fn directory(&self) -> &Directory
        ensures { result.now ≡ self.now }
    {
        match &self.home {
            Home::Shared(directory) => directory.as_ref(),
            Home::Alone(directory) => directory,
        }
    }

    // The directory for one more owner.
    fn home_again(&self) -> Home
        ensures { directory_in result ≡ self.now }
    {
        if let Home::Shared(directory) = &self.home
            && let Ok(other) = directory.clone()
        {
            return Home::Shared(other);
        }
        Home::Alone(Directory::alone(self.alloc, self.n, self.clients, self.height))
    }
}
