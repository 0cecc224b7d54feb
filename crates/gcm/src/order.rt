// Blocks of 16 bytes as numbers, in the two orders of their bytes.
ghost use Rattle.std.specs.Prelude.{◌≡◌};
ghost use Rattle.gcm.specs.Orders.{block_of, counted, number_of, pair_of};

// Which byte of a number is first: the highest in GCM, the lowest in GCM-SIV.
#[derive(Clone, Copy)]
pub(crate) enum ByteOrder {
    BigEndian,
    LittleEndian,
}

// The number of a block.
pub(crate) fn number_of(order: ByteOrder, block: [u8; 16]) -> u128
    ensures { result ≡ number_of order block }
{
    match order {
        ByteOrder::BigEndian => u128::from_be_bytes(block),
        ByteOrder::LittleEndian => u128::from_le_bytes(block),
    }
}

// The block of a number.
pub(crate) fn block_of(order: ByteOrder, n: u128) -> [u8; 16]
    ensures { result ≡ block_of order n }
{
    match order {
        ByteOrder::BigEndian => n.to_be_bytes(),
        ByteOrder::LittleEndian => n.to_le_bytes(),
    }
}

// The block of two numbers of 64 bits.
pub(crate) fn pair_of(order: ByteOrder, a: u64, b: u64) -> [u8; 16]
    ensures { result ≡ pair_of order a b }
{
    let mut block = [0u8; 16];
    match order {
        ByteOrder::BigEndian => {
            block[..8].copy_from_slice(&a.to_be_bytes());
            block[8..].copy_from_slice(&b.to_be_bytes());
        }
        ByteOrder::LittleEndian => {
            block[..8].copy_from_slice(&a.to_le_bytes());
            block[8..].copy_from_slice(&b.to_le_bytes());
        }
    }
    block
}

// The block with i added to the 32 bits that count, modulo their size.
pub(crate) fn counter_after(order: ByteOrder, block: &[u8; 16], i: u64) -> [u8; 16]
    ensures { result ≡ counted order block.now i }
{
    let mut out = *block;
    let mut field = [0u8; 4];
    let i = (i % (1 << 32)) as u32;
    match order {
        ByteOrder::BigEndian => {
            field.copy_from_slice(&block[12..]);
            let count = u32::from_be_bytes(field).wrapping_add(i);
            out[12..].copy_from_slice(&count.to_be_bytes());
        }
        ByteOrder::LittleEndian => {
            field.copy_from_slice(&block[..4]);
            let count = u32::from_le_bytes(field).wrapping_add(i);
            out[..4].copy_from_slice(&count.to_le_bytes());
        }
    }
    out
}
