// The kinds of statements, and the list of statements that some of them hold.
ghost use Rattle.std.specs.Prelude.{◌≡◌};
ghost use Rattle.rl_transform.specs.Transforms.{list_field, list_place, flag_field};

pub const RETURN: u8 = 66;

pub const RETURN_ALONE: u8 = 67;

pub const CONDITIONAL: u8 = 68;

pub const BRANCH: u8 = 69;

pub const WHILE: u8 = 70;

pub const LOOP: u8 = 71;

pub const FOR: u8 = 72;

pub const FOR_RANGE: u8 = 73;

pub const FOR_EACH: u8 = 74;

pub const MATCH: u8 = 75;

pub const ARM: u8 = 76;

// Where a kind has its list of statements: the field's number, its place behind the record's start, and the number of the flag that is
// cleared with it; 7 is no field of any kind.
#[derive(Drop)]
pub struct ListField {
    pub number: u8,
    pub place: usize,
    pub flag: u8,
}

pub fn list_field(kind: u8) -> ListField
    ensures number { result.number ≡ list_field kind }
    ensures place { result.place ≡ list_place kind }
    ensures flag { result.flag ≡ flag_field kind }
{
    let (number, place) = match kind {
        BRANCH | WHILE | ARM => (2, 7),
        LOOP => (1, 5),
        FOR => (4, 11),
        FOR_RANGE | FOR_EACH => (3, 9),
        _ => (0, 0),
    };
    let flag = if kind == BRANCH { 3 } else { 7 };
    ListField {
        number,
        place,
        flag,
    }
}
