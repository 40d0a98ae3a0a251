// Words in lent bytes, low byte first.
ghost use Rattle.std.specs.Prelude.{◌≡◌, [], ◌∷◌, ◌+◌, ◌≤◌, length};
ghost use Rattle.std.proofs.lemmas.List.Edits.{sets};
ghost use Rattle.laws.specs.Words.{word_bytes};
ghost use Rattle.table.specs.Reading.{Word, pair_of};

// The four bytes from p on.
pub fn word(t: &[u8], p: usize) -> u32
    requires { p + 4 ≤ length t.now }
    ensures { Word t.now p result }
{
    u32::from_le_bytes([t[p], t[p + 1], t[p + 2], t[p + 3]])
}

// Two words as one number, the first the low one: the compiler reads both at once.
pub fn pair(a: u32, b: u32) -> u64
    ensures { result ≡ pair_of a b }
{
    u64::from(a) + 4294967296 * u64::from(b)
}

// Writes a word at p.
pub fn put_word(t: &mut [u8], p: usize, u: u32)
    requires { p + 4 ≤ length t.old }
    ensures { t.new ≡ sets t.old p (word_bytes u) }
{
    put_bytes(t, p, u.to_le_bytes());
}

// Writes four bytes at p.
pub fn put_bytes(t: &mut [u8], p: usize, bytes: [u8; 4])
    requires { p + 4 ≤ length t.old }
    ensures { t.new ≡ sets t.old p bytes }
{
    t[p..p + 4].copy_from_slice(&bytes);
}
