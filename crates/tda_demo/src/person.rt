// The persons of the demo.
ghost use Rattle.std.specs.Prelude.{◌≡◌};
ghost use Rattle.tda_demo.specs.Names.{value_name};
ghost use Rattle.tda_demo.specs.People.{kind_number, sex_number, age_number, cell_of};
ghost use Rattle.tda_demo.specs.Persons as spec;
ghost use Rattle.tda_demo.specs.Schema.{schema};

// The kinds of quarters.
#[derive(Clone, Copy)]
pub(crate) enum Kind {
    House,
    Dorm,
    Prison,
}

#[derive(Clone, Copy)]
pub(crate) enum Sex {
    Female,
    Male,
}

#[derive(Clone, Copy)]
pub(crate) enum Age {
    Minor,
    Adult,
}

#[derive(Clone, Copy)]
pub(crate) struct Person {
    pub(crate) kind: Kind,
    pub(crate) sex: Sex,
    pub(crate) age: Age,
}

// The name of a kind.
pub(crate) fn kind_name(kind: Kind) -> &'static [u8]
    ensures { result.now ≡ value_name schema 0 (kind_number kind) }
{
    match kind {
        Kind::House => b"house",
        Kind::Dorm => b"dorm",
        Kind::Prison => b"prison",
    }
}

// The name of a sex.
pub(crate) fn sex_name(sex: Sex) -> &'static [u8]
    ensures { result.now ≡ value_name schema 1 (sex_number sex) }
{
    match sex {
        Sex::Female => b"f",
        Sex::Male => b"m",
    }
}

// The name of an age.
pub(crate) fn age_name(age: Age) -> &'static [u8]
    ensures { result.now ≡ value_name schema 2 (age_number age) }
{
    match age {
        Age::Minor => b"minor",
        Age::Adult => b"adult",
    }
}

// The kind that a word makes in a block, where quarters of it stand there.
fn drawn_kind(dormitory: bool, prison: bool, word: u32) -> Kind
    ensures { kind_number result ≡ spec.drawn_kind dormitory prison word }
{
    if word % 8 == 0 && dormitory {
        Kind::Dorm
    } else if word % 8 == 1 && prison {
        Kind::Prison
    } else {
        Kind::House
    }
}

fn drawn_sex(word: u32) -> Sex
    ensures { sex_number result ≡ spec.drawn_sex word }
{
    if word / 8 % 2 == 0 {
        Sex::Female
    } else {
        Sex::Male
    }
}

// The age that a word makes: nobody in a prison is a minor.
fn drawn_age(kind: Kind, word: u32) -> Age
    ensures { age_number result ≡ spec.drawn_age (kind_number kind) word }
{
    if matches!(kind, Kind::Prison) || word / 16 % 2 == 1 {
        Age::Adult
    } else {
        Age::Minor
    }
}

// The person that a word makes in a block.
pub(crate) fn drawn(dormitory: bool, prison: bool, word: u32) -> Person
    ensures { cell_of result ≡ spec.drawn dormitory prison word }
{
    let kind = drawn_kind(dormitory, prison, word);
    Person {
        kind,
        sex: drawn_sex(word),
        age: drawn_age(kind, word),
    }
}
