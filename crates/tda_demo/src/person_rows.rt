// Writes the demo's records.
ghost use Rattle.std.specs.Prelude.{◌≡◌, ◌≤◌, ◌<◌, ◌+◌, ◌*◌, ◌%◌, ◌^◌, ◌++◌, ◌∷◌, [], map, take, drop, length, slice_index, if◌then◌else◌, IfOk, OnOk};
ghost use Rattle.std.specs.List.{flat_map};
ghost use Rattle.tda_io.specs.Texts.{IsPlain, row_text};
ghost use Rattle.tda_demo.specs.BlockCodes.{leaf_code};
ghost use Rattle.tda_demo.specs.Demo.{records_text};
ghost use Rattle.tda_demo.specs.DemoSpine.{branches};
ghost use Rattle.tda_demo.specs.Facilities.{has_dormitory, has_prison};
ghost use Rattle.tda_demo.specs.People.{cell_of};
ghost use Rattle.tda_demo.specs.Persons as spec;
ghost use Rattle.tda_demo.specs.Persons.{cell, residents, person_row, person_rows, word};
ghost use Rattle.tda_demo.specs.Schema.{schema};

use crate::codes::block_code;
use crate::person::{Age, Kind, Person, Sex, age_name, drawn, kind_name, sex_name};
use crate::taking::take_word;
use std::alloc::Global;
use tda_io::{NoMemory, push_field};
use tda_words::SeedWords;

// As many words as the persons of the largest demo take, and more: 16 for each of 1,536 blocks.
const WORDS: u64 = 24_576;

// The number as eight bytes, least byte first, and 24 zero bytes.
pub(crate) fn seed(number: u64) -> [u8; 32]
    ensures { result ≡ spec.seed number }
{
    let mut seed = [0; 32];
    seed[..8].copy_from_slice(&number.to_le_bytes());
    seed
}

// Appends the row of a person in a block.
fn push_person(out: &mut Vec<u8>, code: &[u8], person: Person) -> Result<(), NoMemory>
    requires { IsPlain code.now }
    ensures { OnOk result (out.new.items ≡ out.old.items ++ row_text (person_row schema code.now (cell_of person))) }
{
    push_field(out, code, false)?;
    push_field(out, kind_name(person.kind), false)?;
    push_field(out, sex_name(person.sex), false)?;
    push_field(out, age_name(person.age), true)
}

// Appends the row of an adult in a facility, where it stands there.
fn push_resident(
    out: &mut Vec<u8>,
    code: &[u8],
    person: Person,
    stands: bool,
) -> Result<(), NoMemory>
    requires { IsPlain code.now }
    ensures { OnOk result (out.new.items ≡ out.old.items ++ flat_map row_text (map (person_row schema code.now) (if stands then cell_of person ∷ [] else []))) }
{
    if stands {
        push_person(out, code, person)
    } else {
        Ok(())
    }
}

// Appends the rows of the persons that a block's facilities need: a woman in a dormitory, a man in a prison.
fn push_residents(out: &mut Vec<u8>, code: &[u8], block: u32) -> Result<(), NoMemory>
    requires { IsPlain code.now }
    ensures { OnOk result (out.new.items ≡ out.old.items ++ flat_map row_text (map (person_row schema code.now) (residents (has_dormitory block) (has_prison block)))) }
{
    let woman = Person {
        kind: Kind::Dorm,
        sex: Sex::Female,
        age: Age::Adult,
    };
    let man = Person {
        kind: Kind::Prison,
        sex: Sex::Male,
        age: Age::Adult,
    };
    push_resident(out, code, woman, block % 3 == 0)?;
    push_resident(out, code, man, block % 5 == 0)
}

// Appends the rows of so many further persons of a block, each made from a word.
fn push_drawn(
    out: &mut Vec<u8>,
    words: &mut SeedWords,
    code: &[u8],
    block: u32,
    further: u32,
) -> Result<(), NoMemory>
    requires plain { IsPlain code.now }
    requires enough { further ≤ length words.old.words }
    ensures taken { OnOk result (words.new.words ≡ drop further words.old.words) }
    ensures made { OnOk result (out.new.items ≡ out.old.items ++ flat_map row_text (map (person_row schema code.now) (map (spec.drawn (has_dormitory block) (has_prison block)) (take further words.old.words)))) }
{
    for _k in 0..further {
        let word = take_word(words);
        push_person(out, code, drawn(block % 3 == 0, block % 5 == 0, word))?;
    }
    Ok(())
}

// Appends the rows of a block's persons: those that its facilities need, and as many more as a word says.
fn push_block(
    out: &mut Vec<u8>,
    words: &mut SeedWords,
    code: &[u8],
    block: u32,
) -> Result<(), NoMemory>
    requires plain { IsPlain code.now }
    requires enough { 16 ≤ length words.old.words }
    ensures taken { OnOk result (words.new.words ≡ drop (1 + slice_index words.old.words 0 % 16) words.old.words) }
    ensures made { OnOk result (out.new.items ≡ out.old.items ++ flat_map row_text (map (person_row schema code.now) (residents (has_dormitory block) (has_prison block) ++ map (spec.drawn (has_dormitory block) (has_prison block)) (take (slice_index words.old.words 0 % 16) (drop 1 words.old.words))))) }
{
    push_residents(out, code, block)?;
    let word = take_word(words);
    push_drawn(out, words, code, block, word % 16)
}

// Appends the rows of all persons.
fn push_all(alloc: Global, out: &mut Vec<u8>, number: u64, size: u32) -> Result<(), NoMemory>
    requires some { 1 ≤ size }
    requires few { size ≤ 64 }
    ensures { OnOk result (out.new.items ≡ out.old.items ++ flat_map row_text (person_rows schema (word number) (leaf_code (branches size) []) (24 * size))) }
{
    let mut words = SeedWords::new(&seed(number), 0, WORDS);
    for block in 0..24 * size {
        let code = block_code(alloc, size, block)?;
        push_block(out, &mut words, &code, block)?;
    }
    Ok(())
}

// The file of the records.
pub(crate) fn records_file(alloc: Global, number: u64, size: u32) -> Result<Vec<u8>, NoMemory>
    requires some { 1 ≤ size }
    requires few { size ≤ 64 }
    ensures { IfOk result (λ text. text.items ≡ records_text number size) }
{
    let mut text = Vec::new(alloc);
    text.extend_from_slice(b"block,kind,sex,age\n")?;
    push_all(alloc, &mut text, number, size)?;
    Ok(text)
}
