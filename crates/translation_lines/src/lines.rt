// The lines of the templates of rules 32 to 46, each as one number: its kind and its three cells, a byte each.
ghost use Rattle.std.specs.Prelude.{◌≡◌, true, ◌<◌, get_or, length};
ghost use Rattle.reader.specs.Kinds.{modes, is_rule};
ghost use Rattle.translation_rules.specs.Templates.{template};
ghost use Rattle.translation_rules.specs.Output.{no_line};
ghost use Rattle.translation_lines.specs.Codes.{line_of};

// Where the lines of a rule start, and how many there are, by kind from 32 on.
const STARTS: [usize; 15] = [0, 1, 8, 14, 20, 37, 47, 57, 72, 88, 102, 123, 141, 150, 155];

const COUNTS: [usize; 15] = [1, 7, 6, 6, 17, 10, 10, 15, 16, 14, 21, 18, 9, 5, 17];

// A cell's byte: 00 is none, 1j part j, 2w word w of part 0, 30 the word one deeper, 40 the type inside, 50 the node itself, 6j the conclusion of premise j, and
// 80 + r record r of the block.
const LINES: [usize; 172] = [
    // 32
    0x42000000,
    // 33
    0x12500000, 0x01800000, 0x42000000, 0x42000000, 0x01830000, 0x01820084, 0x4b818500,
    // 34
    0x01100000, 0x42000000, 0x42000000, 0x01820000, 0x01810083, 0x4b808400,
    // 35
    0x01210000, 0x50000000, 0x42000000, 0x01820000, 0x01810083, 0x4b808400,
    // 36
    0x14222100, 0x14212100, 0x09004000, 0x14822100, 0x01810000, 0x01100084, 0x01830085, 0x42000000,
    0x50000000, 0x01880000, 0x01870089, 0x4f868a00, 0x01800000, 0x42000000, 0x018d0000, 0x018b008e,
    0x4b8c8f00,
    // 37
    0x12100000, 0x01500000, 0x44000000, 0x01820000, 0x01600083, 0x4c818400, 0x01800000, 0x01610000,
    0x01850087, 0x43868800,
    // 38
    0x01210000, 0x42000000, 0x42000000, 0x01820000, 0x01810083, 0x4b808400, 0x01300000, 0x01600000,
    0x01850087, 0x43868800,
    // 39
    0x01100000, 0x42000000, 0x01810000, 0x47808200, 0x42000000, 0x01840000, 0x48808500, 0x01220000,
    0x01600000, 0x01860088, 0x43878900, 0x01210000, 0x018a0000, 0x0183008c, 0x438b8d00,
    // 40
    0x01500000, 0x44000000, 0x01810000, 0x01600082, 0x4b808300, 0x01840000, 0x49008500, 0x01210000,
    0x42000000, 0x42000000, 0x01890000, 0x0188008a, 0x4b878b00, 0x018c0000, 0x0186008d, 0x43878e00,
    // 41
    0x01500000, 0x44000000, 0x01810000, 0x01600082, 0x4b808300, 0x42000000, 0x01100000, 0x01850000,
    0x01840087, 0x45868800, 0x01220000, 0x01610000, 0x0189008b, 0x438a8c00,
    // 42
    0x01500000, 0x44000000, 0x01810000, 0x01600082, // premise 0 of 42
    0x4b808300, 0x44000000, 0x01850000, 0x01610086, // premise 1 of 42
    0x4b808700, 0x01880000, 0x01840089, 0x46008a00, 0x01210000, 0x42000000, 0x42000000, 0x018e0000,
    0x018d008f, 0x4b8c9000, 0x01910000, 0x018b0092, 0x438c9300,
    // 43
    0x01500000, 0x44000000, 0x01810000, 0x01600082, 0x4b808300, 0x01120000, 0x01110085, 0x01840000,
    0x4d868700, 0x01210000, 0x42000000, 0x42000000, 0x018b0000, 0x018a008c, 0x4b898d00, 0x018e0000,
    0x0188008f, 0x43899000,
    // 44
    0x01110000, 0x01100080, 0x42000000, 0x01820000, 0x4e818300, 0x01120000, 0x01600000, 0x01840086,
    0x43858700,
    // 45
    0x01110000, 0x42000000, 0x01600000, 0x01810082, 0x43808300,
    // 46
    0x14111200, 0x01500000, 0x44000000, 0x01820000, 0x01600083, 0x4b818400, 0x42000000, 0x01130000,
    0x01800087, 0x01100088, 0x01860000, 0x0185008a, 0x4f898b00, 0x01140000, 0x01610000, 0x018c008e,
    0x438d8f00,
];

// How many lines the template of rule k has.
pub fn lines_of(k: usize) -> usize
    requires { is_rule modes.proof k ≡ true }
    ensures { result ≡ length (template k) }
{
    COUNTS[k - 32]
}

// Line r of the template of rule k.
pub fn line_at(k: usize, r: usize) -> usize
    requires { (is_rule modes.proof k ≡ true) × (r < length (template k)) }
    ensures { line_of result ≡ get_or (template k) r no_line }
{
    let start = STARTS[k - 32];
    LINES[start + r]
}
