//! Owned bytes, with one owner or with many.
ghost use Rattle.std.specs.Prelude.{◌≡◌, IfOk};

use crate::memory::NoMemory;
use std::alloc::Global;
use std::marker::Model;
use std::sync::Arc;

/// Where the bytes are.
#[derive(Drop)]
enum Place {
    /// With this owner alone.
    Own(Vec<u8>),
    /// With any number of owners.
    Shared(Arc<Vec<u8>>),
}

/// Bytes that are owned. Contracts see their list.
#[derive(Drop)]
pub struct Bytes {
    place: Place,
}

impl Model for Bytes {
    ghost use Rattle.std.specs.Prelude.{ℕ, List};
    ghost use Rattle.css_base.specs.Places.{bytes_at};

    ghost Value = { List ℕ };

    ghost view = { λ b. bytes_at b.place };
}

impl Bytes {
    /// These bytes. Takes no memory.
    pub fn new(bytes: Vec<u8>) -> Bytes
        ensures { result ≡ bytes.items }
    {
        Bytes {
            place: Place::Own(bytes),
        }
    }

    /// Lends the bytes.
    pub fn as_slice(&self) -> &[u8]
        ensures { result.now ≡ self.now }
    {
        match &self.place {
            Place::Own(bytes) => bytes.as_slice(),
            Place::Shared(bytes) => bytes.as_slice(),
        }
    }

    /// Gives the bytes back. They are copied only where they have other owners, and then there may be no memory.
    pub fn into_vec(self) -> Result<Vec<u8>, NoMemory>
        ensures { IfOk result (λ bytes. bytes.items ≡ self) }
    {
        match self.place {
            Place::Own(bytes) => Ok(bytes),
            Place::Shared(bytes) => match Arc::try_unwrap(bytes) {
                Ok(bytes) => Ok(bytes),
                Err(bytes) => Ok(bytes.as_ref().clone()?),
            },
        }
    }

    /// The same bytes, ready to have many owners: `share` doesn't copy them. The bytes are gone where there was no
    /// memory.
    pub fn into_shared(self, alloc: Global) -> Result<Bytes, NoMemory>
        ensures { IfOk result (λ b. b ≡ self) }
    {
        let place = match self.place {
            Place::Own(bytes) => Place::Shared(Arc::new(alloc, bytes)?),
            shared => shared,
        };
        Ok(Bytes { place })
    }

    /// The same bytes once more. They are copied unless they have been made ready by `into_shared`. `NoMemory` also where the
    /// owners are too many to be counted.
    pub fn share(&self) -> Result<Bytes, NoMemory>
        ensures { IfOk result (λ b. b ≡ self.now) }
    {
        let place = match &self.place {
            Place::Own(bytes) => Place::Own(bytes.clone()?),
            Place::Shared(bytes) => Place::Shared(Arc::try_clone(bytes)?),
        };
        Ok(Bytes { place })
    }
}
