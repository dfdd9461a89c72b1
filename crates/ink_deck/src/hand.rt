//! What a pass has put and was given, and the rule.
use crossbeam_deque::protocol as deques;
use crossbeam_queue::protocol as queues;
use std::collections::LinkedList;

/// What a pass has put and was given. It stands in contracts alone: no value of it is made.
pub struct Hand {
    pub put: LinkedList<u32>,
    pub taken: LinkedList<u32>,
}

/// The rule of a deque and of the queue: what was put was given once, or is still there.
pub struct Fair;

impl deques::Protocol<u32, Hand> for Fair {
    ghost use Rattle.std.specs.Prelude.{[]};
    ghost use Rattle.ink_deck.specs.Hands.{hand, Balanced};

    ghost holds = { Balanced };

    ghost first = { hand [] [] };

    ghost guest = { hand [] [] };
}

impl queues::Protocol<u32, Hand> for Fair {
    ghost use Rattle.std.specs.Prelude.{[]};
    ghost use Rattle.ink_deck.specs.Hands.{hand, Balanced};

    ghost holds = { Balanced };

    ghost first = { hand [] [] };
}

/// A number is put.
pub struct Puts;

impl deques::Outcome<u32, Hand> for Puts {
    ghost use Rattle.std.specs.Prelude.{◌≡◌, ◌++◌};
    ghost use Rattle.ink_deck.specs.Hands.{hand};

    ghost then = { λ v xs w. w ≡ hand (v.put ++ xs) v.taken };
}

impl queues::Outcome<u32, Hand> for Puts {
    ghost use Rattle.std.specs.Prelude.{◌≡◌};
    ghost use Rattle.ink_deck.specs.Hands.{and_put};

    ghost then = { λ v x w. w ≡ and_put x v };
}

/// A number is given.
pub struct Takes;

impl deques::Outcome<u32, Hand> for Takes {
    ghost use Rattle.std.specs.Prelude.{◌≡◌, ◌++◌};
    ghost use Rattle.ink_deck.specs.Hands.{hand};

    ghost then = { λ v xs w. w ≡ hand v.put (v.taken ++ xs) };
}

impl queues::Outcome<u32, Hand> for Takes {
    ghost use Rattle.std.specs.Prelude.{◌≡◌};
    ghost use Rattle.ink_deck.specs.Hands.{and_taken};

    ghost then = { λ v x w. w ≡ and_taken x v };
}

impl queues::Lesson<u32, Hand> for Takes {
    ghost use Rattle.std.specs.Prelude.{⊤};

    ghost fact = { λ v items. ⊤ };
}
