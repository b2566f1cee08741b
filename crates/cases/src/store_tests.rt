// Stores at the ends of their ranges, with guards of both kinds.
use faults::{Fault, Refusal};
use guards::{Conjunction, TruthTable};
use indexed::Indexed;
use labels::{Choice, Guard, Literal, Sign};
use rows::{Cells, Row};
use std::alloc::Global;
use std::test::Fail;
use stores::{Heap, Pruned, Store, no_row};

// A row for every choice, with a number in column 0.
fn row<G: Guard>(number: i32) -> Row<G> {
    Row {
        guard: G::everything(),
        cells: Cells::zeros().with(0, number),
    }
}

// The guard of the label, or of its absence.
fn guard<G: Guard>(sign: Sign, label: u32) -> G {
    G::of_literal(Literal { sign, label })
}

// The numbers in column 0 at the first four places, and 0 where there is no row.
fn numbers<G: Guard, S: Store<G>>(store: &S) -> [i32; 4] {
    let number = |place| store.row(place).cells.values[0];
    [number(0), number(1), number(2), number(3)]
}

// Fills a store that has room for three rows, and asks for what goes beyond it.
fn fills<G: Guard, S: Store<G>>(store: &mut S) -> Result<bool, Fault> {
    let outside = Err(Fault::new(Refusal::PlaceOutOfRange, 3));
    for number in [5, 7, 5] {
        store.add(&row(number))?;
    }
    let full = numbers(store) == [5, 7, 5, 0]
        && store.add(&row(9)) == Err(Fault::new(Refusal::TableFull, 0))
        && store.add(&no_row()) == Ok(())
        && store.put(3, &row(9)) == outside
        && store.remove(3) == outside;
    let found = store.next(0, 0, 5) == Some(0)
        && store.next(1, 0, 5) == Some(2)
        && store.next(3, 0, 5).is_none()
        && store.next(0, 5, 0) == Some(0)
        && store.next(0, 6, 0).is_none();
    store.put(1, &row(9))?;
    let put = store.next(0, 0, 7).is_none() && store.next(0, 0, 9) == Some(1);
    store.remove(0)?;
    Ok(full && found && put)
}

// A heap closes the gap that a removal leaves, and a row that does not touch it removes another.
fn heap_is_right<G: Guard>(alloc: Global) -> Result<bool, Fail> {
    let mut slots = vec![in alloc; no_row::<G>(); 3]?;
    let mut heap = Heap::new(&mut slots);
    let filled = fills(&mut heap)? && numbers(&heap) == [9, 5, 0, 0];
    heap.put(0, &no_row())?;
    Ok(filled && heap.count() == 1 && heap.capacity() == 3 && numbers(&heap) == [5, 0, 0, 0])
}

// An indexed table moves its last row into the gap.
fn indexed_is_right<G: Guard>(alloc: Global) -> Result<bool, Fail> {
    let mut table: Indexed<G> = Indexed::new(alloc, 3)?;
    let filled = fills(&mut table)? && numbers(&table) == [5, 9, 0, 0];
    let found = table.next(0, 0, 5) == Some(0) && table.next(0, 0, 9) == Some(1);
    table.put(0, &no_row())?;
    let last = table.count() == 1 && table.capacity() == 3 && numbers(&table) == [9, 0, 0, 0];
    let widest: Indexed<G> = Indexed::new(alloc, 5_000)?;
    Ok(filled && found && last && widest.capacity() == 4_096)
}

// A store that is pruned twice keeps what both guards admit, and takes rows for that alone.
fn pruned_is_right<G: Guard>(alloc: Global) -> Result<bool, Fail> {
    let mut slots = vec![in alloc; no_row::<G>(); 2]?;
    let below = Pruned::new(Heap::new(&mut slots), guard::<G>(Sign::Plus, 1));
    let mut store = Pruned::new(below, guard::<G>(Sign::Minus, 2));
    let with_one = Choice { bits: 0b010 };
    let with_both = Choice { bits: 0b110 };
    let kept = store.keeps(with_one)
        && !store.keeps(with_both)
        && store.touches(guard(Sign::Minus, 0))
        && !store.touches(guard(Sign::Plus, 2));
    store.add(&Row {
        guard: guard(Sign::Plus, 2),
        cells: Cells::zeros(),
    })?;
    let passed_over = store.count() == 0;
    store.add(&row(8))?;
    let stored = store.row(0).guard;
    let narrowed = stored.admits(with_one) && !stored.admits(with_both);
    let told = Pruned::<_, G>::check(&store) == Err(Fault::new(Refusal::StoreNotEmpty, 0));
    store.remove(0)?;
    Ok(kept && passed_over && narrowed && told && Pruned::<_, G>::check(&store) == Ok(()))
}

#[test]
fn heaps(rt: HostRuntime) -> Result<(), Fail> {
    let alloc = rt.alloc();
    assert!(rt; heap_is_right::<Conjunction>(alloc)? && heap_is_right::<TruthTable>(alloc)?);
    Ok(())
}

#[test]
fn indexed_tables(rt: HostRuntime) -> Result<(), Fail> {
    let alloc = rt.alloc();
    assert!(rt; indexed_is_right::<Conjunction>(alloc)? && indexed_is_right::<TruthTable>(alloc)?);
    Ok(())
}

#[test]
fn pruned_stores(rt: HostRuntime) -> Result<(), Fail> {
    let alloc = rt.alloc();
    assert!(rt; pruned_is_right::<Conjunction>(alloc)? && pruned_is_right::<TruthTable>(alloc)?);
    Ok(())
}
