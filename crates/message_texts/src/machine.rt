use pci_command::NoMemory;
use program_pages::{Fault, Teller, line_at};
use text_faults::LspciFault;

/// A line of what `lspci` wrote is at fault.
pub fn tell_machine_line(
    teller: &mut Teller,
    input: &[u8],
    number: u32,
    fault: LspciFault,
) -> Result<(), NoMemory> {
    let sentence = Fault::Machine(fault).to_string(teller.alloc())?;
    match line_at(input, number) {
        Some((_, line)) => teller.point(number, line, 0, sentence.as_str()),
        None => teller.error(sentence.as_str()),
    }
}
