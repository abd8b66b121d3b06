// Prints the published figures beside ours. What is ours comes from the functions of the crates below, never from a constant.
#![tactic(auto)]

mod lines;
mod matrices;
mod ours;
mod print;
mod rules;

// A figure on a line: what it is | ours | the document's. A number of ours stands as # in decimal and as $ in hexadecimal, and
// behind each of the document's stands ;. One that the document has as a matrix only stands as @.
fn main(rt: HostRuntime) {
    print::figures(
        &rt,
        b"01, and 001 the first 8: SF 11, payload 00 00, CR 1, flag on | # # # # # # # # # # # # # | \
1692; 648; 348; 160; 400; 1748; 1124; 1136; 0; 0; 0; 0; 0;
01: airtime of that, n = 8, 125 kHz, milliseconds and microseconds | # # | 413; 696;
01: code, length 255 into 831 cells, largest settings: refusal, place | # # | 4; 832;
01: code, length 256: refusal, place | # # | 3; 0;
01: code, SF 6: refusal, place | # # | 1; 0;
01: code, SF 13: refusal, place | # # | 1; 0;
001, SF 8 and SF 11: nibbles in the header's block | # # | 6; 9;
001, slide: first bytes of the whitening sequence | $ $ $ | fe; ff; ff;
001, SF 8 and SF 11: the two bytes used, which are payload 00 00 whitened | $ $ | ff; fe;
001, SF 8: the second block's rows | $ $ $ $ $ | 02; 82; c1; e0; 70;
001, SF 8: its row 0, parity moved first | $ | 02;
001, SF 8: its rows 1 to 4, parity moved first | $ $ $ $ | 82; c1; e0; 70;
001, SF 11: values, lowest digit first | $ $ $ $ $ $ $ $ | 7a1; 2a0; 750; 820; 460; 5b1; 911; c11;
001, SF 11: words 0 to 5, lowest digit first (the text has lost word 6) | $ $ $ $ $ $ | 471; 3f0; c70; c30; 650; f61;
001, SF 11: word 7 | $ | 291;
001: symbol counts by the formula with the factor CR + 4, alike and not | # # | 24576; 0;
001: the same with the factor as printed, 4 / (CR + 4), alike and not | # # | 24576; 0;
001: symbol counts without a header, 20 bits less, factor CR + 4, alike and not | # # | 24576; 0;
001, Matlab code, and 003, program: whitening bytes, alike and not | # # | 255; 0;
000 (6) to (9), 003: codewords at CR 1 to 4 by the matrices, alike and not | # # | 64; 0;
000 (12), 003 (3.2): headers by the matrix, alike and not | # # | 2048; 0;
000 (12), 003 (3.2): the first two by CR, flag, length, 0 0 2 and 0 1 2: their last nibbles | $ $ | @; @;
",
    );
}
