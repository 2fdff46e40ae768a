//! Lines that are read and lines that go wrong, each computed.
#![tactic(auto, unfolding(crate::specs::Reading::line_from, crate::specs::Reading::command_from, crate::specs::Reading::argument_from, crate::specs::Reading::word_from, crate::specs::Reading::number_from, crate::specs::Reading::mode_from, crate::specs::Reading::furthest))]

ghost use Rattle.std.specs.Prelude.{◌≡◌, [], codes, Ok};
ghost use Rattle.qx_model.specs.declared.operation.Op.TheVariants as op;
ghost use Rattle.qx_model.specs.declared.turn.Act.TheVariants as act;
ghost use Rattle.qx_words.specs.Lines.{line_by};
ghost use Rattle.qx_words.specs.Reading.{bad, line_from};

/// `ls` alone, a session with an escaped blank and the greatest count, modes, owners, times, the most bytes that a fill puts, names in their order, and the end.
pub fn lines_that_are_read()
    ensures here { line_from (codes "ls") ≡ Ok (line_by 0 (act.Op (op.List (codes ".")))) }
    ensures session { line_from (codes "@12 cat a\\20b 5 65536") ≡ Ok (line_by 12 (act.Op (op.Read (codes "a b") 5 65536))) }
    ensures zero { line_from (codes "@0 df") ≡ Ok (line_by 0 act.Df) }
    ensures either_case { line_from (codes "cd \\2F\\2f") ≡ Ok (line_by 0 (act.Cd (codes "//"))) }
    ensures mode { line_from (codes "chmod a 17") ≡ Ok (line_by 0 (act.Op (op.Chmod (codes "a") 15))) }
    ensures zeros { line_from (codes "chmod a 0644") ≡ Ok (line_by 0 (act.Op (op.Chmod (codes "a") 420))) }
    ensures owner { line_from (codes "chown a 5 6") ≡ Ok (line_by 0 (act.Op (op.Chown (codes "a") 5 6))) }
    ensures times { line_from (codes "utime a 0 4294967295") ≡ Ok (line_by 0 (act.Op (op.Utime (codes "a") 0 4294967295))) }
    ensures filled { line_from (codes "fill a 0 281474976710656 255") ≡ Ok (line_by 0 (act.Op (op.Fill (codes "a") 0 281474976710656 255))) }
    ensures link { line_from (codes "ln a b") ≡ Ok (line_by 0 (act.Op (op.Link (codes "a") (codes "b")))) }
    ensures symlink { line_from (codes "symlink a b") ≡ Ok (line_by 0 (act.Op (op.Symlink (codes "a") (codes "b")))) }
    ensures removed { line_from (codes "rm a") ≡ Ok (line_by 0 (act.Op (op.Remove (codes "a")))) }
    ensures quit { line_from (codes "quit") ≡ Ok (line_by 0 act.End) }
{}

/// Where lines go wrong: behind the longest part that begins a line with a reading.
pub fn lines_that_go_wrong()
    ensures name { line_from (codes "mkdri a") ≡ bad 3 }
    ensures spaces { line_from (codes "ls  a") ≡ bad 3 }
    ensures ends { line_from (codes "write a 0") ≡ bad 9 }
    ensures more { line_from (codes "tick x") ≡ bad 4 }
    ensures nothing { line_from [] ≡ bad 0 }
    ensures prefix { line_from (codes "rmdi x") ≡ bad 4 }
    ensures zero { line_from (codes "fill a 0 0 1") ≡ bad 9 }
    ensures leading { line_from (codes "truncate a 01") ≡ bad 12 }
    ensures sign { line_from (codes "truncate a +1") ≡ bad 11 }
    ensures escape { line_from (codes "create a\\4") ≡ bad 10 }
    ensures digit { line_from (codes "create a\\4g") ≡ bad 10 }
    ensures above { line_from (codes "cat a 0 65537") ≡ bad 12 }
    ensures session { line_from (codes "@18446744073709551616 df") ≡ bad 20 }
    ensures mode { line_from (codes "chmod a 07778") ≡ bad 12 }
    ensures blank { line_from (codes "df ") ≡ bad 2 }
{}
