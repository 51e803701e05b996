// Tells the words of a sheet's vocabulary apart, and gives the numbers that stand for them. Every public function takes any bytes.
#![tactic(auto)]

ghost use Rattle.std.specs.Prelude.{◌≡◌};
ghost use Rattle.text.specs.Bytes.{bytes_of};
ghost use Rattle.text.specs.Token.{same_bytes, is_reserved};
ghost use Rattle.sheet.specs.Vocabulary.{operator_of, relation_of, prefix_of, stream_kind_of};
ghost use Rattle.nodes.specs.Code.{stream_kind_code};
ghost use Rattle.vocabulary.specs.Word.{code_or255, word_place, infix_code, prefix_code, relation_number, TellsWord};

// A number that tells the words of up to seven bytes apart, from a word's first byte as the lowest; 0 for a longer token.
fn word_number(token: &[u8]) -> u64
    ensures { TellsWord token.now result }
{
    if 7 < token.len() {
        return 0;
    }
    let mut number: u64 = 1;
    for i in (0..token.len()).rev() {
        number = number * 256 + u64::from(token[i]);
    }
    number
}

// The tables of words: the numbers of the words, and beside them what a word means. The number of a word, as `word_number` gives it, has the
// word's bytes, the last as the highest, behind a 1. The codes have one place more, for a token that is none of the words.
const OPERATOR_WORDS: [u64; 14] = [
    0x1_2b, // +
    0x1_2d, // -
    0x1_2a, // *
    0x1_2f, // /
    0x1_25, // %
    0x1_74_6c, // lt
    0x1_65_6c, // le
    0x1_71_65, // eq
    0x1_65_67, // ge
    0x1_74_67, // gt
    0x1_65_6e, // ne
    0x1_64_6e_61, // and
    0x1_72_6f, // or
    0x1_79_62_66, // fby
];

const OPERATOR_CODES: [u8; 15] = [
    nodes::ADD_NODE,
    nodes::SUBTRACT_NODE,
    nodes::MULTIPLY_NODE,
    nodes::DIVIDE_NODE,
    nodes::REMAINDER_NODE,
    nodes::LESS_NODE,
    nodes::AT_MOST_NODE,
    nodes::EQUAL_NODE,
    nodes::AT_LEAST_NODE,
    nodes::GREATER_NODE,
    nodes::DIFFERENT_NODE,
    nodes::AND_NODE,
    nodes::OR_NODE,
    nodes::FBY_NODE,
    nodes::NO_CODE,
];

const RELATION_WORDS: [u64; 8] = [
    0x1_3c, // <
    0x1_3d_3c, // <=
    0x1_3d_3d, // ==
    0x1_3d_3e, // >=
    0x1_3e, // >
    0x1_3d_21, // !=
    0x1_3e_2d, // ->
    0x1_6c_69_74_6e_75, // until
];

const RELATION_CODES: [u8; 9] = [
    nodes::LESS_RELATION,
    nodes::AT_MOST_RELATION,
    nodes::EQUAL_RELATION,
    nodes::AT_LEAST_RELATION,
    nodes::GREATER_RELATION,
    nodes::DIFFERENT_RELATION,
    nodes::IMPLIES_RELATION,
    nodes::UNTIL_RELATION,
    nodes::NO_CODE,
];

const PREFIX_WORDS: [u64; 3] = [
    0x1_74_73_72_69_66, // first
    0x1_74_78_65_6e, // next
    0x1_74_6f_6e, // not
];

const PREFIX_CODES: [u8; 4] = [
    nodes::FIRST_NODE,
    nodes::NEXT_NODE,
    nodes::NEGATION_NODE,
    nodes::NO_CODE,
];

const STREAM_KIND_WORDS: [u64; 2] = [
    0x1_64_61_65_72, // read
    0x1_74_65_73, // set
];

const STREAM_KIND_CODES: [u8; 3] = [nodes::READ_STREAM, nodes::SET_STREAM, nodes::NO_CODE];

const RESERVED_WORDS: [u64; 18] = [
    0x1_74_6c, // lt
    0x1_65_6c, // le
    0x1_71_65, // eq
    0x1_65_67, // ge
    0x1_74_67, // gt
    0x1_65_6e, // ne
    0x1_64_6e_61, // and
    0x1_72_6f, // or
    0x1_79_62_66, // fby
    0x1_66_69, // if
    0x1_6e_65_68_74, // then
    0x1_65_73_6c_65, // else
    0x1_74_73_72_69_66, // first
    0x1_74_78_65_6e, // next
    0x1_74_6f_6e, // not
    0x1_6c_69_74_6e_75, // until
    0x1_64_61_65_72, // read
    0x1_74_65_73, // set
];

// The first place of a number in a table of words; as many as the table has where it is none of them.
fn word_place(words: &[u64], number: u64) -> usize
    ensures { result ≡ word_place words.now number }
{
    for (i, word) in words.iter().enumerate() {
        if *word == number {
            return i;
        }
    }
    words.len()
}

// The number of an operator's node, or 255.
pub fn operator_code(token: &[u8]) -> u8
    ensures { result ≡ code_or255 infix_code (operator_of token.now) }
{
    let number = word_number(token);
    let place = word_place(&OPERATOR_WORDS, number);
    OPERATOR_CODES[place]
}

// The number of a relation, or 255.
pub fn relation_code(token: &[u8]) -> u8
    ensures { result ≡ code_or255 relation_number (relation_of token.now) }
{
    let number = word_number(token);
    let place = word_place(&RELATION_WORDS, number);
    RELATION_CODES[place]
}

// The number of the node of `first`, `next` or `not`, or 255.
pub fn prefix_code(token: &[u8]) -> u8
    ensures { result ≡ code_or255 prefix_code (prefix_of token.now) }
{
    let number = word_number(token);
    let place = word_place(&PREFIX_WORDS, number);
    PREFIX_CODES[place]
}

// The number of the kind that a word of the line of kinds says, `read` or `set`, or 255.
pub fn stream_kind_code(token: &[u8]) -> u8
    ensures { result ≡ code_or255 stream_kind_code (stream_kind_of token.now) }
{
    let number = word_number(token);
    let place = word_place(&STREAM_KIND_WORDS, number);
    STREAM_KIND_CODES[place]
}

// "Reserved words: all operator words, `if then else first next not until`", and `read` and `set`.
pub fn is_reserved(token: &[u8]) -> bool
    ensures { result ≡ is_reserved token.now }
{
    let number = word_number(token);
    let place = word_place(&RESERVED_WORDS, number);
    place < 18
}

pub fn is_if(token: &[u8]) -> bool
    ensures { result ≡ same_bytes (bytes_of "if") token.now }
{
    scan::same_bytes(b"if", token)
}

pub fn is_then(token: &[u8]) -> bool
    ensures { result ≡ same_bytes (bytes_of "then") token.now }
{
    scan::same_bytes(b"then", token)
}

pub fn is_else(token: &[u8]) -> bool
    ensures { result ≡ same_bytes (bytes_of "else") token.now }
{
    scan::same_bytes(b"else", token)
}

// The first word of the release line.
pub fn is_release(token: &[u8]) -> bool
    ensures { result ≡ same_bytes (bytes_of "release") token.now }
{
    scan::same_bytes(b"release", token)
}

pub fn is_opening(token: &[u8]) -> bool
    ensures { result ≡ same_bytes (bytes_of "(") token.now }
{
    scan::same_bytes(b"(", token)
}
