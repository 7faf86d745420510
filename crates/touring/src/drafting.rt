// The drafted plan: why each number stands where it does, and the plan as lines.
use crate::{CARDS, THRESHOLD};
use field::Field;
use lines::{Entry, Line, Reader, Wanted};

// Says of each number of the plan's rows why it stands there, and prints the plan as lines.
pub(crate) fn drafted<F: Field>(rt: &HostRuntime, rows: &[u8; 6]) -> anyhow::Result<()> {
    let size = F::size();
    println!(rt;
        "It has {size} numbers. Cards 0, 1 and 2 get unit rows; rows 3 and 4 are Cauchy rows."
    )?;
    for (i, number) in rows.iter().enumerate() {
        explained::<F>(rt, 3 + (i / 3) as u8, (i % 3) as u8, *number)?;
    }
    written(rt, F::mark(), rows)
}

// Says that the number at row c, place p is the reciprocal of c minus p.
fn explained<F: Field>(rt: &HostRuntime, c: u8, p: u8, number: u8) -> anyhow::Result<()> {
    let difference = F::sum(c, F::opposite(p));
    let product = F::product(difference, number);
    println!(rt;
        "  row {c}, place {p}: {c} minus {p} is {difference:02X}, and {difference:02X} times {number:02X} is {product:02X}"
    )?;
    Ok(())
}

// Prints the plan as lines, reads its first line back, and says so.
fn written(rt: &HostRuntime, mark: u8, rows: &[u8]) -> anyhow::Result<()> {
    let plan = Entry::Plan {
        field: mark,
        t: THRESHOLD,
        n: CARDS,
    };
    let text = plan.text(rt.alloc())?;
    println!(rt; "The plan as lines:")?;
    print!(rt; "{text}")?;
    for row in rows.chunks(3) {
        print!(rt; "{}", Entry::Row { numbers: row })?;
    }
    let Ok(mut reader) = Reader::new(text.as_bytes()) else {
        return Ok(());
    };
    if let Ok(Line::Plan { field, t, n }) = reader.read(Wanted::Plan { marks: &[mark] }) {
        println!(rt; "Read back: a plan in field {field:02X}, {t} of {n}.")?;
    }
    Ok(())
}
