// The labels of the eight fields: name and " = ".
ghost use Rattle.std.specs.Prelude.{◌≡◌, ◌<◌, length, get_or};
ghost use Rattle.response_format.specs.Fields.{label, is_number};

// Each label in eight bytes.
const LABELS: [u8; 64] = *b"count = seed =  mlen =  msg =   pk =    sk =    smlen = sm =    ";

const LENGTHS: [u8; 8] = [8, 7, 7, 6, 5, 5, 8, 5];

// How long the label of a field is; after the last field none is due.
pub fn label_length(field: u8) -> u8
    ensures { result ≡ length (label field) }
{
    if field < 8 {
        LENGTHS[usize::from(field)]
    } else {
        0
    }
}

pub fn label_byte(field: u8, at: u8) -> u8
    requires { at < length (label field) }
    ensures { result ≡ get_or (label field) at 0 }
{
    LABELS[usize::from(field) * 8 + usize::from(at)]
}

#[tactic(auto, unfolding(response_format::specs::Fields::is_number))]
pub fn is_number(field: u8) -> bool
    ensures { result ≡ is_number field }
{
    matches!(field, 0 | 2 | 6)
}
