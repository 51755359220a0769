// Reads and changes of a mask in words.
ghost use Rattle.std.specs.Prelude.{◌≡◌, cond, ℕ, ◌+◌, ◌-◌, ◌*◌, ◌/◌, ◌%◌, ◌^◌, ◌<◌, ◌≤◌, eqb, length, set};
ghost use Rattle.std.specs.Int.Count.{ones, count_trailing_zeros};
ghost use Rattle.std.proofs.lemmas.List.Edits.{sets};
ghost use Rattle.lists.specs.Fold.{tab};
ghost use Rattle.marks.specs.Marks.{is_marked, marked_below, marked_count};
ghost use Rattle.words.specs.Words.{bit_at, entries_of, word_count, packed, words_of, unused_set, Tidy, Holds};
ghost use Rattle.words.specs.ByWords.{put_at, no_bits, next_from, spread_of, eight_bytes};

// Bit i.
pub fn bit_at(words: &[u64], i: usize) -> u8
    requires { i / 64 < length words.now }
    ensures { result ≡ bit_at words.now i }
{
    ((words[i / 64] >> (i % 64)) % 2) as u8
}

// Whether voxel i is marked, as it is in the entries of any number of voxels that has it. Code that asks of one voxel asks here.
pub fn is_marked(words: &[u64], i: usize) -> bool
    requires { i / 64 < length words.now }
    ensures { (n : ℕ) → i < n → result ≡ is_marked (entries_of words.now n) i }
{
    bit_at(words, i) == 1
}

// Marks voxel i, if there is such a one of n.
pub fn mark(words: &mut [u64], n: usize, i: usize)
    requires { Tidy words.old n }
    ensures { Holds words.new n (set (entries_of words.old n) i 1) }
{
    if n <= i {
        return;
    }
    set_bit(words, i);
}

// The first marked voxel of n from i on, or n if there is none. Where voxels are marked one after another, the first look finds the next.
pub fn next_marked(words: &[u64], n: usize, i: usize) -> usize
    requires { Tidy words.now n × (n < 9223372036854775808) }
    ensures { result ≡ next_from (is_marked (entries_of words.now n)) n (n - i) i }
{
    if i < n && is_marked(words, i) {
        return i;
    }
    search(words, n, i)
}

// The same by search: words of 0 are passed over whole.
fn search(words: &[u64], n: usize, i: usize) -> usize
    requires { Tidy words.now n × (n < 9223372036854775808) }
    ensures { result ≡ next_from (is_marked (entries_of words.now n)) n (n - i) i }
{
    let mut at = i;
    while at < n {
        let w = words[at / 64] >> (at % 64);
        if w != 0 {
            return at + w.trailing_zeros() as usize;
        }
        at = (at / 64 + 1) * 64;
    }
    n
}

// Sets bit i.
pub fn set_bit(words: &mut [u64], i: usize)
    requires { i / 64 < length words.old }
    ensures { words.new ≡ put_at words.old i 1 }
{
    words[i / 64] |= 1 << (i % 64);
}

// No bit set.
pub fn clear(words: &mut [u64])
    ensures { words.new ≡ no_bits (length words.old) }
{
    words.fill(0);
}

// The words of entries, in words.
pub fn pack(entries: &[u8], words: &mut [u64])
    requires { length words.old ≡ word_count (length entries.now) }
    ensures { words.new ≡ words_of entries.now }
{
    for (k, word) in words.iter_mut().enumerate() {
        *word = word_of(entries, k * 64);
    }
}

// The word of the 64 entries from first on.
fn word_of(entries: &[u8], first: usize) -> u64
    requires { first ≤ length entries.now }
    ensures { result ≡ packed (is_marked entries.now) 64 first }
{
    if 64 <= entries.len() - first {
        return full_word(entries, first);
    }
    last_word(entries, first)
}

// The same where there are 64, eight at a time from the last down.
fn full_word(entries: &[u8], first: usize) -> u64
    requires { first + 64 ≤ length entries.now }
    ensures { result ≡ packed (is_marked entries.now) 64 first }
{
    let mut w = 0;
    for j in (0..8).rev() {
        w = eight_of(entries, first + j * 8) + 256 * w;
    }
    w
}

// The same where there are fewer: from the last one down.
fn last_word(entries: &[u8], first: usize) -> u64
    requires { (first ≤ length entries.now) × (length entries.now < first + 64) }
    ensures { result ≡ packed (is_marked entries.now) 64 first }
{
    let mut w = 0;
    for j in (0..entries.len() - first).rev() {
        w = u64::from(entries[first + j] == 1) + 2 * w;
    }
    w
}

// The eight bits of the entries from first on.
fn eight_of(entries: &[u8], first: usize) -> u64
    requires { first + 8 ≤ length entries.now }
    ensures { (result ≡ packed (is_marked entries.now) 8 first) × (result < 256) }
{
    u64::from(entries[first] == 1)
        + u64::from(entries[first + 1] == 1) * 2
        + u64::from(entries[first + 2] == 1) * 4
        + u64::from(entries[first + 3] == 1) * 8
        + u64::from(entries[first + 4] == 1) * 16
        + u64::from(entries[first + 5] == 1) * 32
        + u64::from(entries[first + 6] == 1) * 64
        + u64::from(entries[first + 7] == 1) * 128
}

// The entries of words, in entries: eight at a time, then the rest.
pub fn unpack(words: &[u64], entries: &mut [u8])
    requires { length words.now ≡ word_count (length entries.old) }
    ensures { entries.new ≡ entries_of words.now (length entries.old) }
{
    let eights = entries.len() / 8;
    for (k, word) in words.iter().enumerate() {
        for j in 0..(eights - k * 8).min(8) {
            put_eight(entries, (k * 8 + j) * 8, spread((*word >> (j * 8)) % 256));
        }
    }
    for i in eights * 8..entries.len() {
        entries[i] = bit_at(words, i);
    }
}

// The eight bits of b, each in a byte of its own. The product has b in every byte, of which the mask leaves byte j its bit j; adding 127 carries what is
// left to the byte's highest bit.
fn spread(b: u64) -> u64
    requires { b < 256 }
    ensures { result ≡ spread_of b }
{
    let apart = (b * 0x0101_0101_0101_0101) & 0x8040_2010_0804_0201;
    ((apart + 0x7f7f_7f7f_7f7f_7f7f) >> 7) & 0x0101_0101_0101_0101
}

// Writes the eight bytes of x from first on.
fn put_eight(entries: &mut [u8], first: usize, x: u64)
    requires { first + 8 ≤ length entries.old }
    ensures { entries.new ≡ sets entries.old first (eight_bytes x) }
{
    let bytes = x.to_le_bytes();
    for j in 0..8 {
        entries[first + j] = bytes[j];
    }
}

// How many of n voxels are marked.
pub fn count(words: &[u64], n: usize) -> u64
    requires { Tidy words.now n }
    ensures { result ≡ marked_count (entries_of words.now n) }
{
    let mut c = 0;
    for word in words {
        c += u64::from(word.count_ones());
    }
    c
}

// How many voxels below p are marked, in the entries of any number of voxels that has these. Bits from p on are not looked at.
pub fn count_below(words: &[u64], p: usize) -> u64
    requires { p ≤ length words.now * 64 }
    ensures { ((n : ℕ) → p ≤ n → result ≡ marked_below (entries_of words.now n) p) × (result ≤ p) }
{
    let last = p / 64;
    let mut c = 0;
    for word in &words[..last] {
        c += u64::from(word.count_ones());
    }
    if p % 64 == 0 {
        return c;
    }
    c + ones_below(words[last], p % 64)
}

// The ones below place j.
fn ones_below(w: u64, j: usize) -> u64
    requires { j < 64 }
    ensures { (result ≡ ones (w % 2 ^ j)) × (result ≤ j) }
{
    u64::from((w % (1 << j)).count_ones())
}

// Whether a bit past the last of n voxels is set.
pub fn unused_set(words: &[u64], n: usize) -> bool
    requires { length words.now ≡ word_count n }
    ensures { result ≡ unused_set words.now n }
{
    n % 64 != 0 && (words[n / 64] >> (n % 64)) != 0
}
