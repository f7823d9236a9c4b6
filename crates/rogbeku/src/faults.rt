// The lines that cannot be read.
ghost use Rattle.std.specs.Prelude.{OnOk};
ghost use Rattle.std.specs.List.{flat_map};
ghost use Rattle.std.specs.Io.KnownBytes.{Appends};
ghost use Rattle.rogbeku.specs.Lines.{fault_line};

use script::reading::Fault;
use std::io;
use std::io::Write;

// Names each line that cannot be read.
pub fn tell_faults<W: Write>(out: &mut W, faults: &[Fault]) -> io::Result<()>
    ensures { OnOk result (Appends (W.contents out.old) (W.contents out.new) (flat_map fault_line faults.now)) }
{
    for fault in faults {
        writeln!(out, "{fault}")?;
    }
    Ok(())
}
