// A block's codewords as symbol words and back, through the grid of bits; a word as a symbol number and back.
// Of a block's rows, 5 to 12, each contract asks what it needs: a type for them would be made, and its range shown, at each
// call, since callers have the number from layout::Block.
#![tactic(auto)]

ghost use Rattle.std.specs.Prelude.{◌≡◌, false, ℕ, ◌+◌, ◌-◌, ◌*◌, ◌%◌, ◌^◌, ◌<◌, ◌≤◌, get_or};
ghost use Rattle.bits.specs.Bit.{bit, number, is_set, as_bit};
ghost use Rattle.bits.specs.Tab.{over, blank};
ghost use Rattle.block.specs.Gray.{value_of_word, word_of_value, number_of_value, value_of_number};
ghost use Rattle.block.specs.Block.{place_in_word, word_of_number};
ghost use Rattle.block.specs.Grid.{row, cell, words_of_grid, grid_of_words, codeword_of_grid};

use std::array;

pub fn value_of_word(n: usize, w: u16) -> u16
    requires { (n ≤ 12) × (w < 2 ^ n) }
    ensures { result ≡ value_of_word n w }
{
    let a = w ^ (w >> 1);
    let b = a ^ (a >> 2);
    let c = b ^ (b >> 4);
    c ^ (c >> 8)
}

#[tactic(auto, unfolding(crate::specs::Gray::word_of_value))]
fn word_of_value(v: u16) -> u16
    ensures { result ≡ word_of_value v }
{
    v ^ (v / 2)
}

#[tactic(auto, unfolding(crate::specs::Gray::number_of_value))]
pub fn number_of_value(wide: bool, v: u16) -> u16
    requires { v < 4096 }
    ensures { result ≡ number_of_value wide v }
{
    if wide { 4 * v } else { v }
}

// At the four-wide spacing the number plus 2, divided by 4: by halves, since the largest number plus 2 has no room in 16 bits.
#[tactic(auto, unfolding(crate::specs::Gray::value_of_number))]
pub fn value_of_number(n: usize, wide: bool, s: u16) -> u16
    requires { n ≤ 12 }
    ensures { result ≡ value_of_number n wide s }
{
    if wide {
        (s / 2 + 1) / 2 % bits::power(n)
    } else {
        s
    }
}

#[tactic(auto, unfolding(crate::specs::Block::word_of_number))]
pub fn word_of_number(n: usize, wide: bool, s: u16) -> u16
    requires { n ≤ 12 }
    ensures { result ≡ word_of_number n wide s }
{
    word_of_value(value_of_number(n, wide, s))
}

// A place less than twice round n places, as one of them.
fn around(n: usize, at: usize) -> usize
    requires { (n ≤ 12) × (at < 2 * n) }
    ensures { (result ≡ at % n) × (result < n) }
{
    if at < n { at } else { at - n }
}

// The lowest n bits of a word, turned s places upwards.
fn turned_up(n: usize, s: usize, w: u16) -> u16
    requires { (n ≤ 12) × (s ≤ n) }
    ensures { result ≡ number n (λ i. bit ((i + n - s) % n) w) }
{
    let all = bits::power(n);
    let low = w % all;
    let up = (u32::from(low) << s) % u32::from(all);
    up as u16 + (low >> (n - s))
}

// A word of n bits, turned s places downwards: written twice, side by side, and cut from the place s on.
fn turned_down(n: usize, s: usize, w: u16) -> u16
    requires { (n ≤ 12) × (s ≤ n) × (w < 2 ^ n) }
    ensures { result ≡ number n (λ k. bit ((s + k) % n) w) }
{
    let once = u32::from(w);
    let twice = once + (once << n);
    ((twice >> s) % u32::from(bits::power(n))) as u16
}

// The lowest bits of a codeword.
fn low_bits(columns: usize, codeword: u8) -> u8
    requires { columns ≤ 8 }
    ensures { result ≡ codeword % 2 ^ columns }
{
    (u16::from(codeword) % bits::power(columns)) as u8
}

// The columns with a row more, each bit below those of its column.
fn with_row(columns: [u16; 8], row: &[bool; 8]) -> [u16; 8]
    requires { (j : ℕ) → j < 8 → get_or columns j 0 < 4096 }
    ensures { result ≡ over 8 (λ j. get_or columns j 0 * 2 + as_bit (get_or row.now j false)) (blank 8 0) }
{
    array::from_fn(|j| columns[j] * 2 + u16::from(row[j]))
}

// The bits of each column, row 0 lowest.
fn columns_of_grid(n: usize, g: [[bool; 8]; 12]) -> [u16; 8]
    requires { n ≤ 12 }
    ensures { result ≡ over 8 (λ j. number n (λ i. as_bit (cell g i j))) (blank 8 0) }
{
    let mut columns = [0u16; 8];
    for row in g[..n].iter().rev() {
        // In two steps, since the checker takes no call's result straight into an array.
        let longer = with_row(columns, row);
        columns = longer;
    }
    columns
}

// Word j down its diagonal: column j, turned.
pub fn words_of_grid(n: usize, columns: usize, g: [[bool; 8]; 12]) -> [u16; 8]
    requires { (5 ≤ n) × (n ≤ 12) × (columns ≤ 8) }
    ensures { result ≡ words_of_grid n columns g }
{
    let plain = columns_of_grid(n, g);
    let mut words = [0u16; 8];
    // By the place and not by zip: behind an adapter of iter_mut no proof knows what the cells hold.
    for (j, word) in words[..columns].iter_mut().enumerate() {
        *word = turned_down(n, around(n, j), plain[j]);
    }
    words
}

// The column of word j: its bit i stands in row i.
fn column_of_word(n: usize, j: usize, word: u16) -> u16
    requires { (5 ≤ n) × (n ≤ 12) × (j < 8) }
    ensures { result ≡ number n (λ i. bit (place_in_word n i j) word) }
{
    turned_up(n, around(n, j), word)
}

// The column of each word: of all eight, so that the compiler unrolls the loop.
fn columns_of_words(n: usize, words: [u16; 8]) -> [u16; 8]
    requires { (5 ≤ n) × (n ≤ 12) }
    ensures { result ≡ over 8 (λ j. number n (λ i. bit (place_in_word n i j) (get_or words j 0))) (blank 8 0) }
{
    array::from_fn(|j| column_of_word(n, j, words[j]))
}

// Row i: one bit of each column. Rows or a grid made by from_fn are slower: the compiler then takes no eight cells at a time.
fn set_row(plain: &[u16; 8], i: usize, cells: &mut [bool; 8])
    requires { i < 12 }
    ensures { cells.new ≡ row 8 (λ j. is_set (bit i (get_or plain.now j 0))) }
{
    for (j, cell) in cells.iter_mut().enumerate() {
        *cell = (plain[j] >> i) % 2 == 1;
    }
}

// A column has no bits above the block's rows, so the loop can run over all 12, and the compiler unrolls it.
pub fn grid_of_words(n: usize, words: [u16; 8]) -> [[bool; 8]; 12]
    requires { (5 ≤ n) × (n ≤ 12) }
    ensures { result ≡ grid_of_words n words }
{
    let plain = columns_of_words(n, words);
    let mut g = [[false; 8]; 12];
    for (i, row) in g.iter_mut().enumerate() {
        set_row(&plain, i, row);
    }
    g
}

// Four cells as a number, the first lowest. Cell k stands at bit 8 k; a product with 2^24 + 2^17 + 2^10 + 2^3 brings it to
// bit 24 + k, and none of the other terms to there.
fn four(a: bool, b: bool, c: bool, d: bool) -> u8
    ensures { (result ≡ as_bit a + 2 * as_bit b + 4 * as_bit c + 8 * as_bit d) × (result < 16) }
{
    let cells = u64::from(a) + 256 * u64::from(b) + 65536 * u64::from(c) + 16777216 * u64::from(d);
    (cells * 16909320 / 16777216 % 16) as u8
}

// The bits of a row.
#[tactic(auto, unfolding(bits::specs::Bit::number))]
fn codeword_of_row(row: &[bool; 8]) -> u8
    ensures { result ≡ number 8 (λ j. as_bit (get_or row.now j false)) }
{
    four(row[0], row[1], row[2], row[3]) + 16 * four(row[4], row[5], row[6], row[7])
}

// Codeword i of a grid, which is lent: a caller that takes them one by one needs no list of them.
pub fn codeword_of_grid(columns: usize, g: &[[bool; 8]; 12], i: usize) -> u8
    requires { (columns ≤ 8) × (i < 12) }
    ensures { result ≡ codeword_of_grid columns g.now i }
{
    low_bits(columns, codeword_of_row(&g[i]))
}
