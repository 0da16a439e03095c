//! The messages by which devices interrupt: writes in memory of a value that names the vector (PCI
//! Local Bus Specification 2.2, section 6.8).
ghost use Rattle.std.specs.Prelude.{◌≡◌};
ghost use Rattle.dma_agents.specs.messages.Message.{is_vector_count, message_of};

/// The dword that a function with so many vectors writes for the vector of this number: its message
/// data with the low bits replaced. There is none where a function cannot have so many vectors, or
/// has none of this number. No word of the program calls it.
pub fn message(low: u16, vectors: u8, number: u8) -> Option<u32>
    ensures { result ≡ message_of low vectors number }
{
    if !is_vector_count(vectors) || number >= vectors {
        return None;
    }
    let vectors = u32::from(vectors);
    Some(u32::from(low) / vectors * vectors + u32::from(number))
}

fn is_vector_count(number: u8) -> bool
    ensures { result ≡ is_vector_count number }
{
    matches!(number, 1 | 2 | 4 | 8 | 16 | 32)
}
