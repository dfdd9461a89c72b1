//! How often calls failed.
ghost use Rattle.std.specs.Prelude.{◌≡◌, Some};
ghost use Rattle.ink_devices.specs.Outside.{one_more, CountsFault};

use ink_base::Text;

/// How often calls of one kind failed, and the name in the last of them that did.
///
/// The count stops at the greatest `u64`.
#[derive(Drop)]
pub struct Faults {
    pub count: u64,
    pub name: Option<Text>,
}

impl Faults {
    ghost use Rattle.ink_devices.specs.Outside.{no_faults};

    /// No call failed.
    pub(crate) fn none() -> Faults
        ensures { result ≡ no_faults }
    {
        Faults {
            count: 0,
            name: None,
        }
    }

    /// Counts a call that failed, and keeps its name.
    pub(crate) fn tell(&mut self, name: Text)
        ensures count { self.new.count ≡ one_more self.old.count }
        ensures rises { CountsFault self.old.count self.new.count }
        ensures name { self.new.name ≡ Some name }
    {
        self.count = one_more(self.count);
        self.name = Some(name);
    }
}

/// The count with one more, up to the greatest `u64`.
pub(crate) fn one_more(count: u64) -> u64
    ensures value { result ≡ one_more count }
    ensures rises { CountsFault count result }
{
    count.saturating_add(1)
}
