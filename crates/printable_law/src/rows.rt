//! Worked examples of texts, and by which line each breaks the form of a journal with one connection lane and one data lane.
ghost use Rattle.std.specs.Prelude.{◌≡◌, codes, Some, None};
ghost use Rattle.printable_law.specs.Examples.{fault};

/// Lanes without entries, and entries with their outputs.
#[tactic(auto, unfolding(crate::specs::Examples::fault))]
pub fn sound()
    ensures bare { fault (codes "= control\n= conn 0\n= data 0\n") ≡ None }
    ensures filled { fault
        (codes "= control\n= conn 0\n= data 0\n1.1.4 e0 local 8\n < 8 unit 0 4208 4206 aa\n") ≡ None }
    ensures published { fault (codes
        "= control\n1.0.4 e0 no hop new e1\n > 99999 3 -\n . read 2 7\n= conn 0\n= data 0\n")
        ≡ None }
{}

/// A lane that is missing, between others and at the end; an end without a line feed; and no text.
#[tactic(auto, unfolding(crate::specs::Examples::fault))]
pub fn missing()
    ensures between { fault
        (codes "= control\n= data 0\n1.1.4 e0 local 8\n < 8 unit 0 4208 4206 aa\n") ≡ Some 2 }
    ensures at_end { fault (codes "= control\n= conn 0\n") ≡ Some 3 }
    ensures no_feed { fault (codes "= control\n= conn 0\n= data 0") ≡ Some 3 }
    ensures empty { fault (codes "") ≡ Some 1 }
{}

/// A number with a zero before it, a carriage return, and octets of an odd number of digits.
#[tactic(auto, unfolding(crate::specs::Examples::fault))]
pub fn unsound()
    ensures zero { fault (codes "= control\n01.0.4\n= conn 0\n= data 0\n") ≡ Some 2 }
    ensures carriage { fault (codes "= control\r\n= conn 0\n= data 0\n") ≡ Some 1 }
    ensures odd { fault (codes "= control\n= conn 0\n= data 0\n1.1.4\n > 1 2 abc\n") ≡ Some 5 }
{}
