use cover::covering;
use std::test::Fail;
use table::{From, Mark, Past, Table};
use terms::TermLength;

/// The views of a table, four at most; 0 where it has no row.
fn views(table: &Table<Mark>) -> [u64; 4] {
    let mut views = [0; 4];
    for (view, mark) in views.iter_mut().zip(table.as_slice()) {
        *view = mark.view;
    }
    views
}

#[test]
fn rows_keep_their_order(rt: HostRuntime) {
    let mut rows = [Mark { view: 0 }; 4];
    let mut table = Table::new(&mut rows);
    for view in [7u64, 3, 9, 3] {
        assert!(rt; table.insert(Mark { view }));
    }
    assert_eq!(rt; views(&table), [3, 7, 9, 0]);
    assert_eq!(rt; table.len(), 3);
    assert!(rt; table.contains(9) && !table.contains(8));
    assert_eq!(rt; table.last_to(8), Some(Mark { view: 7 }));
    assert_eq!(rt; table.last_to(2), None);
}

#[test]
fn a_full_table_takes_no_new_view(rt: HostRuntime) {
    let mut rows = [Mark { view: 0 }; 4];
    let mut table = Table::new(&mut rows);
    for view in [4u64, 3, 2, 1] {
        assert!(rt; table.insert(Mark { view }));
    }
    assert!(rt; !table.insert(Mark { view: 5 }) && table.insert(Mark { view: 2 }));
    table.remove(2);
    assert_eq!(rt; views(&table), [1, 3, 4, 0]);
    table.retire(&Past(1));
    assert_eq!(rt; views(&table), [3, 4, 0, 0]);
    table.retire(&From(4));
    assert_eq!(rt; views(&table), [4, 0, 0, 0]);
    table.retire(&Past(u64::MAX));
    assert_eq!(rt; table.len(), 0);
}

#[test]
fn the_highest_that_covers(rt: HostRuntime) -> Result<(), Fail> {
    let mut rows = [Mark { view: 0 }; 3];
    let mut table = Table::new(&mut rows);
    for view in [13u64, 5, 6] {
        assert!(rt; table.insert(Mark { view }));
    }
    let length = TermLength::new(4)?;
    for (view, cover) in [(5u64, 5u64), (8, 6), (13, 13), (16, 13)] {
        assert_eq!(rt; covering(&table, length, view), Some(Mark { view: cover }));
    }
    for view in [0u64, 4, 9, 12, 17, u64::MAX] {
        assert_eq!(rt; covering(&table, length, view), None);
    }
    Ok(())
}
