// Fields of a record, little-endian. A slice and an offset with `i + n ≤ length` stay parameters, here and where records are read: each field and
// each record has its own length n, so a type that holds the bound would be one for each length. `bits16` and `bits32` stay two: no trait of std
// has `from_le_bytes`, so a generic one would need a trait of ours for two bodies of one line.
ghost use Rattle.std.specs.Prelude.{◌≡◌, ◌+◌, ◌≤◌, ◌<◌, length};
ghost use Rattle.record.specs.Bytes as bytes;
ghost use Rattle.record.specs.Bytes.{Half};

// 8 bits.
pub fn bits8(s: &[u8], i: usize) -> u8
    requires { i < length s.now }
    ensures { result ≡ bytes.bits8 s.now i }
{
    s[i]
}

// 16 bits.
pub fn bits16(s: &[u8], i: usize) -> u16
    requires { i + 2 ≤ length s.now }
    ensures { Half s.now i result }
{
    u16::from_le_bytes(s[i..i + 2].try_into().unwrap())
}

// 32 bits.
pub fn bits32(s: &[u8], i: usize) -> u32
    requires { i + 4 ≤ length s.now }
    ensures { result ≡ bytes.bits32 s.now i }
{
    u32::from_le_bytes(s[i..i + 4].try_into().unwrap())
}

// 32 bits, signed.
pub fn signed_bits32(s: &[u8], i: usize) -> i64
    requires { i + 4 ≤ length s.now }
    ensures { result ≡ bytes.signed_bits32 s.now i }
{
    laws::signed32(bits32(s, i))
}
