//! What is seen of a run from outside.
ghost use Rattle.std.specs.Prelude.{◌≡◌, length};
ghost use Rattle.std.specs.Option.{option_copied};
ghost use Rattle.ink_base.specs.Numbered.{numbered};
ghost use Rattle.ink_post.specs.Worlds.{proc_at};

use crate::post::Post;
use ink_base::{Journal, Text};
use ink_proc::Proc;

impl Post {
    /// How many processes there are.
    pub fn count(&self) -> u32
        ensures { result ≡ length self.now.statuses.items }
    {
        self.statuses.len() as u32
    }

    /// The text of the panic that is the last entry. `None` exactly where that is none.
    pub fn panic_text(&self) -> Option<&Text>
        ensures { option_copied result ≡ self.now.text }
    {
        self.text.as_ref()
    }

    /// A process at home. `None` exactly where there is none of that number, or it is lent or gone.
    pub fn proc(&self, process: u32) -> Option<&Proc>
        ensures { option_copied result ≡ proc_at (numbered self.now.homes.items process) }
    {
        match self.homes.get(process) {
            None => None,
            Some(home) => home.as_ref(),
        }
    }

    /// The journal so far.
    pub fn journal(&self) -> &Journal
        ensures { result.now ≡ self.now.journal }
    {
        &self.journal
    }

    /// The journal.
    pub fn into_journal(self) -> Journal
        ensures { result ≡ self.journal }
    {
        self.journal
    }
}
