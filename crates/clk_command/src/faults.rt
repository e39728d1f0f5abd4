//! The line of a fault.

ghost use Rattle.std.specs.Prelude.{◌++◌, codes, decimal};
ghost use Rattle.std.specs.List.{flat_map};
ghost use Rattle.clk_packet.specs.Bytes.{Wrote};
ghost use Rattle.clk_packet.specs.Fault.{fields_of, fault_text};

use clk_packet::{Fault, Sink, write_all};
use itoa::Buffer;

/// Writes the line of a fault: `fault`, its number, its name and its fields. Doesn't allocate. Fault 20 if the sink fails; it has then
/// taken a front of the line.
pub fn fault_line<W: Sink>(fault: Fault, writer: &mut W) -> Result<(), Fault>
    ensures { Wrote (W.Sink.taken writer.old) (W.Sink.taken writer.new)
        (W.Sink.failures writer.old) (W.Sink.failures writer.new) result (fault_text fault) }
{
    write_all(writer, b"fault ")?;
    write_number(writer, u64::from(fault.number()))?;
    write_all(writer, b": ")?;
    write_all(writer, fault.name().as_bytes())?;
    write_fields_of(writer, fault)?;
    write_all(writer, b"\n")
}

/// Writes a space and the number of each field of a fault.
fn write_fields_of<W: Sink>(writer: &mut W, fault: Fault) -> Result<(), Fault>
    ensures { Wrote (W.Sink.taken writer.old) (W.Sink.taken writer.new)
        (W.Sink.failures writer.old) (W.Sink.failures writer.new) result (flat_map (λ n. codes " " ++ decimal n) (fields_of fault)) }
{
    match fault {
        Fault::Memory | Fault::NoDevice | Fault::TooLarge | Fault::Read | Fault::Write => Ok(()),
        Fault::BadText { offset }
        | Fault::UnknownClass { offset }
        | Fault::BadArgument { offset }
        | Fault::NameTwice { offset }
        | Fault::UnknownName { offset }
        | Fault::BadPort { offset }
        | Fault::PortTwice { offset }
        | Fault::PortMissing { offset }
        | Fault::WrongKind { offset }
        | Fault::ManyDevices { offset }
        | Fault::NotATree { offset } => write_fields(writer, &[u64::from(offset)]),
        Fault::BadTrace { row } => write_fields(writer, &[u64::from(row)]),
        Fault::UnknownSender { sender } => write_fields(writer, &[u64::from(sender)]),
        Fault::BadScript { line } => write_fields(writer, &[u64::from(line)]),
        Fault::TooManyPulls { pulls } => write_fields(writer, &[pulls]),
        Fault::Unsettled {
            queue,
            accepted,
            capacity,
        } => {
            let fields = [u64::from(queue), u64::from(accepted), u64::from(capacity)];
            write_fields(writer, &fields)
        }
    }
}

fn write_fields<W: Sink>(writer: &mut W, fields: &[u64]) -> Result<(), Fault>
    ensures { Wrote (W.Sink.taken writer.old) (W.Sink.taken writer.new)
        (W.Sink.failures writer.old) (W.Sink.failures writer.new) result (flat_map (λ n. codes " " ++ decimal n) fields.now) }
{
    for field in fields {
        write_field(writer, *field)?;
    }
    Ok(())
}

fn write_field<W: Sink>(writer: &mut W, field: u64) -> Result<(), Fault>
    ensures { Wrote (W.Sink.taken writer.old) (W.Sink.taken writer.new)
        (W.Sink.failures writer.old) (W.Sink.failures writer.new) result (codes " " ++ decimal field) }
{
    write_all(writer, b" ")?;
    write_number(writer, field)
}

fn write_number<W: Sink>(writer: &mut W, number: u64) -> Result<(), Fault>
    ensures { Wrote (W.Sink.taken writer.old) (W.Sink.taken writer.new)
        (W.Sink.failures writer.old) (W.Sink.failures writer.new) result (decimal number) }
{
    let mut buffer = Buffer::new();
    write_all(writer, buffer.format(number).as_bytes())
}
