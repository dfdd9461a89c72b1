//! Named files that are kept in memory.
ghost use Rattle.std.specs.Prelude.{◌≡◌, ℕ, ◌-◌, ◌^◌, Option, None, Some, IfSome, IfNone, IfOk, OnOk, OnErr, take};
ghost use Rattle.std.specs.Option.{option_copied};
ghost use Rattle.ink_devices.specs.Stored.{bytes_under, AreApart, IsAt, PutsUnder};

use ink_base::Text;
use std::alloc::{AllocError, Global};
use std::marker::Model;

/// Named files, of which no two have one name.
#[derive(Drop)]
pub(crate) struct Stored {
    files: Vec<(Text, Vec<u8>)>,
}

impl Model for Stored {
    ghost use Rattle.std.specs.Prelude.{List};
    ghost use Rattle.ink_devices.specs.Stored.{File, AreApart};

    ghost Value = { List File };

    ghost view = { λ s. s.files.items };

    ghost invariant = { λ s. AreApart s.files.items };
}

impl Stored {
    /// Keeps these files, which takes no memory.
    pub(crate) fn new(files: Vec<(Text, Vec<u8>)>) -> Stored
        requires { AreApart files.items }
        ensures { result ≡ files.items }
    {
        Stored { files }
    }

    /// The allocator that the files came with.
    pub(crate) fn allocator(&self) -> Global {
        *self.files.allocator()
    }

    /// The bytes under a name.
    pub(crate) fn get(&self, name: &Text) -> Option<&[u8]>
        ensures { option_copied result ≡ bytes_under self.now name.now }
    {
        match index_of(self.files.as_slice(), name.bytes()) {
            Some(index) => Some(self.files[index].1.as_slice()),
            None => None,
        }
    }

    /// Puts bytes under a name, instead of what stands there.
    pub(crate) fn put(&mut self, name: Text, bytes: Vec<u8>) -> Result<(), AllocError>
        ensures ok { OnOk result (PutsUnder self.old self.new name bytes.items) }
        ensures err { OnErr result (self.new ≡ self.old) }
    {
        match index_of(self.files.as_slice(), name.bytes()) {
            Some(index) => self.files[index] = (name, bytes),
            None => self.files.push((name, bytes))?,
        }
        Ok(())
    }
}

/// The index of the file with this name.
fn index_of(files: &[(Text, Vec<u8>)], name: &[u8]) -> Option<usize>
    ensures found { IfSome result (IsAt files.now name.now) }
    ensures absent { IfNone result (bytes_under files.now name.now ≡ None) }
{
    for (index, file) in files.iter().enumerate() {
        if file.0.is(name) {
            return Some(index);
        }
    }
    None
}

/// The first `most` of the bytes, or all where there are fewer.
pub(crate) fn front_of(alloc: Global, bytes: &[u8], most: u64) -> Result<Vec<u8>, AllocError>
    ensures { IfOk result (λ front. front.items ≡ take most bytes.now) }
{
    let count = bytes.len().min(most as usize);
    Vec::from_slice(alloc, &bytes[..count])
}
