// What the documents have as matrices: the code's generators and the header's check bits, which 000 and 003 both print, and
// the step of the whitening register.
ghost use Rattle.std.specs.Prelude.{◌≤◌};

// One matrix after the other. Each number is a row, or a column, written from right to left, as 001 writes codewords: what is
// printed first is the lowest bit.
const ROWS: [usize; 40] = [
    // 000, equations (6) to (9), from 0 on: a row for each of d0 to d3.
    0b1_0001,
    0b1_0010,
    0b1_0100,
    0b1_1000,
    0b01_0001,
    0b11_0010,
    0b11_0100,
    0b10_1000,
    0b101_0001,
    0b111_0010,
    0b011_0100,
    0b110_1000,
    0b1101_0001,
    0b0111_0010,
    0b1011_0100,
    0b1110_1000,
    // 000, equation (12), and 003, below (3.2), from 16 on: the columns, whose rows are c0 to c4, taken as a0 to a3, b0 to b3,
    // e0 to e3, which of the rising and falling orders comes nearest to our sums. No order at all gives them: the row of c1
    // has eight ones, and none of ours more than seven. The three rows of zeros below are left out.
    0b10001,
    0b10010,
    0b10100,
    0b11000,
    0b00110,
    0b01001,
    0b01110,
    0b01010,
    0b01011,
    0b00111,
    0b00011,
    0b00111,
    // 001's Matlab code and 003's program, from 28 on: each bit of the register moves up by one, and those that are tapped,
    // the bits of B8, add up to the lowest. Zeros fill up to twelve rows.
    0b0000_0010,
    0b0000_0100,
    0b0000_1000,
    0b0001_0001,
    0b0010_0001,
    0b0100_0001,
    0b1000_0000,
    0b0000_0001,
    0,
    0,
    0,
    0,
];

// The sum, mod 2, of the rows from the first on where the number, of at most twelve bits, has ones.
pub fn product(number: usize, first: usize) -> usize
    requires { first ≤ 28 }
{
    let mut sum = 0;
    for (i, row) in ROWS[first..first + 12].iter().enumerate() {
        if number >> i & 1 == 1 {
            sum ^= row;
        }
    }
    sum
}

// The check bits of our header number i: of the nibbles of its length, high and low, and of CR x 2 + flag.
pub fn checks(i: usize) -> usize {
    product(i / 16 % 16 + i % 16 * 16 + (2 + i / 256 % 8) * 256, 16)
}
