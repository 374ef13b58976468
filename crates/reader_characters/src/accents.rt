// Letters with an accent, from an ASCII letter and a mark.
ghost use Rattle.std.specs.Prelude.{◌≡◌};
ghost use Rattle.reader.specs.Accents.{composed};
ghost use Rattle.reader_characters.specs.Composing.{unpacked, letters_of};

// The letters of l and the marks CC 80, 81, 82, 83, 88, 8A and A7, from the low byte on, 0 for none. A `match`, as the compiler would write a `const` array to the
// stack at each use.
fn letters_of(l: usize) -> usize
    ensures { unpacked result ≡ letters_of l }
{
    match l {
        65 => 0x00_c5_c4_c3_c2_c1_c0, // A
        67 => 0xc7_00_00_00_00_00_00, // C
        69 => 0x00_00_cb_00_ca_c9_c8, // E
        73 => 0x00_00_cf_00_ce_cd_cc, // I
        78 => 0x00_00_00_d1_00_00_00, // N
        79 => 0x00_00_d6_d5_d4_d3_d2, // O
        85 => 0x00_00_dc_00_db_da_d9, // U
        89 => 0x00_00_00_00_00_dd_00, // Y
        97 => 0x00_e5_e4_e3_e2_e1_e0, // a
        99 => 0xe7_00_00_00_00_00_00, // c
        101 => 0x00_00_eb_00_ea_e9_e8, // e
        105 => 0x00_00_ef_00_ee_ed_ec, // i
        110 => 0x00_00_00_f1_00_00_00, // n
        111 => 0x00_00_f6_f5_f4_f3_f2, // o
        117 => 0x00_00_fc_00_fb_fa_f9, // u
        121 => 0x00_00_ff_00_00_fd_00, // y
        _ => 0,
    }
}

// The character of letter l and the mark CC m, 0 for none.
pub fn composed_of(l: usize, m: usize) -> usize
    ensures { result ≡ composed l m }
{
    let letters = letters_of(l);
    match m {
        128 => letters % 0x100,
        129 => letters / 0x100 % 0x100,
        130 => letters / 0x10000 % 0x100,
        131 => letters / 0x1000000 % 0x100,
        136 => letters / 0x100000000 % 0x100,
        138 => letters / 0x10000000000 % 0x100,
        167 => letters / 0x1000000000000 % 0x100,
        _ => 0,
    }
}
