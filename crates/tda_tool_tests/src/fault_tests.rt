// Texts of faults.
use std::test::Fail;
use tda_invar::FacFault;
use tda_places::MeaFault;
use tda_prices::{PriFault, TabFault};
use tda_records::RecFault;
use tda_refusal::{Plain, push_plain};
use tda_schema::SchemaFault;
use tda_spine::SpineFault;

const FAULTS: [(Plain, &str); 50] = [
    (Plain::TooLong, "TooLong"),
    (Plain::BadLength, "BadLength"),
    (Plain::Records(RecFault::BadRow(2)), "BadRow 2"),
    (Plain::Records(RecFault::UnknownBlock(3)), "UnknownBlock 3"),
    (Plain::Records(RecFault::UnknownValue(4)), "UnknownValue 4"),
    (
        Plain::Records(RecFault::ImpossibleCell(5)),
        "ImpossibleCell 5",
    ),
    (Plain::Records(RecFault::NoMemory), ""),
    (Plain::Measurements(MeaFault::WrongPlace(3)), "WrongPlace 3"),
    (Plain::Measurements(MeaFault::TooMany(4)), "TooMany 4"),
    (Plain::Measurements(MeaFault::Missing), "Missing"),
    (Plain::Measurements(MeaFault::NoMemory), ""),
    (Plain::Tables(TabFault::WrongPlace(3)), "WrongPlace 3"),
    (Plain::Tables(TabFault::NoMemory), ""),
    (Plain::Prices(PriFault::TooMany(4)), "TooMany 4"),
    (Plain::Prices(PriFault::Missing), "Missing"),
    (Plain::Schema(SchemaFault::BadToml), "BadToml"),
    (Plain::Schema(SchemaFault::UnknownKey), "UnknownKey"),
    (Plain::Schema(SchemaFault::MissingKey), "MissingKey"),
    (Plain::Schema(SchemaFault::WrongType), "WrongType"),
    (Plain::Schema(SchemaFault::BadName), "BadName"),
    (Plain::Schema(SchemaFault::Repeated), "Repeated"),
    (Plain::Schema(SchemaFault::BadSize), "BadSize"),
    (Plain::Schema(SchemaFault::UnknownName), "UnknownName"),
    (Plain::Schema(SchemaFault::BadShare), "BadShare"),
    (Plain::Schema(SchemaFault::Denominator), "Denominator"),
    (Plain::Schema(SchemaFault::OverTotal), "OverTotal"),
    (Plain::Schema(SchemaFault::NotNested), "NotNested"),
    (
        Plain::Schema(SchemaFault::KindWithoutCell),
        "KindWithoutCell",
    ),
    (Plain::Schema(SchemaFault::NoMemory), ""),
    (Plain::Spine(SpineFault::BadRow(2)), "BadRow 2"),
    (Plain::Spine(SpineFault::BadHeader(1)), "BadHeader 1"),
    (Plain::Spine(SpineFault::BadCode(10)), "BadCode 10"),
    (Plain::Spine(SpineFault::Repeated(3)), "Repeated 3"),
    (
        Plain::Spine(SpineFault::UnknownParent(131073)),
        "UnknownParent 131073",
    ),
    (Plain::Spine(SpineFault::WrongLevel(4)), "WrongLevel 4"),
    (Plain::Spine(SpineFault::NoNation), "NoNation"),
    (Plain::Spine(SpineFault::Childless(1)), "Childless 3"),
    (Plain::Spine(SpineFault::TooMany), "TooMany"),
    (Plain::Spine(SpineFault::FitTooLarge(None)), "FitTooLarge -"),
    (
        Plain::Spine(SpineFault::FitTooLarge(Some(1))),
        "FitTooLarge 3",
    ),
    (Plain::Spine(SpineFault::NoMemory), ""),
    (Plain::Facilities(FacFault::BadRow(3)), "BadRow 3"),
    (Plain::Facilities(FacFault::BadHeader(1)), "BadHeader 1"),
    (
        Plain::Facilities(FacFault::UnknownBlock(2)),
        "UnknownBlock 2",
    ),
    (Plain::Facilities(FacFault::UnknownKind(2)), "UnknownKind 2"),
    (Plain::Facilities(FacFault::Household(2)), "Household 2"),
    (Plain::Facilities(FacFault::BadCount(2)), "BadCount 2"),
    (Plain::Facilities(FacFault::Repeated(3)), "Repeated 3"),
    (
        Plain::Facilities(FacFault::Repeated(18446744073709551615)),
        "Repeated 18446744073709551615",
    ),
    (Plain::Facilities(FacFault::NoMemory), ""),
];

#[test]
fn a_fault_is_printed_with_its_row(rt: HostRuntime) -> Result<(), Fail> {
    for (fault, want) in FAULTS {
        let mut out = Vec::new(rt.alloc());
        push_plain(&fault, &mut out)?;
        assert_eq!(rt; out.as_slice(), want.as_bytes());
    }
    Ok(())
}
