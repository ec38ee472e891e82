// Which columns are shapes, and the outlines of those that are.
use report::fault::OutlineError;
use report::outline::{Line, outline};
use rows::shape::ShapeRow;
use std::alloc::{AllocError, Global};
use std::test::Fail;

const ROOT: ShapeRow = ShapeRow {
    function: 0,
    parent: 0,
};

// What a place holds that no outline writes.
const OLD: Line = Line {
    row: 60_001,
    depth: 60_002,
};

// The root, and below it each row below the one before.
fn chain(heap: Global, rows: u16) -> Result<Vec<ShapeRow>, AllocError> {
    let mut shape = vec![in heap; ROOT]?;
    for parent in 0..rows.saturating_sub(1) {
        shape.push(ShapeRow {
            function: 1,
            parent,
        })?;
    }
    Ok(shape)
}

// The root and its children, the last with the smallest function.
fn fan(heap: Global, children: u16) -> Result<Vec<ShapeRow>, AllocError> {
    let mut shape = vec![in heap; ROOT]?;
    for i in 0..children {
        shape.push(ShapeRow {
            function: children - i,
            parent: 0,
        })?;
    }
    Ok(shape)
}

#[test]
fn each_fault_is_refused(rt: HostRuntime) {
    let faulty: [&[ShapeRow]; 6] = [
        &[],
        &[ShapeRow {
            function: 1,
            parent: 0,
        }],
        &[
            ShapeRow {
                function: 0,
                parent: 1,
            },
            ShapeRow {
                function: 1,
                parent: 0,
            },
        ],
        &[
            ROOT,
            ShapeRow {
                function: 0,
                parent: 0,
            },
        ],
        &[
            ROOT,
            ShapeRow {
                function: 1,
                parent: 1,
            },
        ],
        &[
            ROOT,
            ShapeRow {
                function: 3,
                parent: 0,
            },
            ShapeRow {
                function: 3,
                parent: 0,
            },
        ],
    ];
    for shape in faulty {
        let mut column = [OLD; 4];
        assert_eq!(rt;
            outline(rt.alloc(), shape, &mut column),
            Err(OutlineError::NotAShape)
        );
        assert_eq!(rt; column, [OLD; 4]);
    }
}

#[test]
fn depth_has_a_limit(rt: HostRuntime) -> Result<(), Fail> {
    let heap = rt.alloc();
    let cases = [(513, Ok(())), (514, Err(OutlineError::NotAShape))];
    for (rows, answer) in cases {
        let shape = chain(heap, rows)?;
        let mut column = vec![in heap; OLD; 600]?;
        assert_eq!(rt; outline(heap, &shape, &mut column), answer);
    }
    Ok(())
}

#[test]
fn rows_have_a_limit(rt: HostRuntime) -> Result<(), Fail> {
    let heap = rt.alloc();
    let cases = [(65_534, Ok(())), (65_535, Err(OutlineError::NotAShape))];
    for (children, answer) in cases {
        let shape = fan(heap, children)?;
        let mut column = vec![in heap; OLD; 65_536]?;
        assert_eq!(rt; outline(heap, &shape, &mut column), answer);
    }
    Ok(())
}

// Siblings stand out of the order of their functions, and children below rows that follow them.
#[test]
fn small_tree_in_outline_order(rt: HostRuntime) {
    let shape = [
        ROOT,
        ShapeRow {
            function: 7,
            parent: 0,
        },
        ShapeRow {
            function: 2,
            parent: 0,
        },
        ShapeRow {
            function: 9,
            parent: 1,
        },
        ShapeRow {
            function: 4,
            parent: 1,
        },
        ShapeRow {
            function: 1,
            parent: 2,
        },
    ];
    let lines = [(0, 0), (2, 1), (5, 2), (1, 1), (4, 2), (3, 2)];
    let mut column = [OLD; 8];
    assert_eq!(rt; outline(rt.alloc(), &shape, &mut column), Ok(()));
    for (line, (row, depth)) in column.iter().zip(lines) {
        assert_eq!(rt; *line, Line { row, depth });
    }
    assert_eq!(rt; column[6], OLD);
    assert_eq!(rt; column[7], OLD);
}

#[test]
fn column_just_long_enough_or_too_short(rt: HostRuntime) {
    let shape = [
        ROOT,
        ShapeRow {
            function: 5,
            parent: 0,
        },
    ];
    let mut short = [OLD; 1];
    assert_eq!(rt;
        outline(rt.alloc(), &shape, &mut short),
        Err(OutlineError::ShortColumn)
    );
    assert_eq!(rt; short, [OLD; 1]);
    let mut exact = [OLD; 2];
    assert_eq!(rt; outline(rt.alloc(), &shape, &mut exact), Ok(()));
    assert_eq!(rt;
        exact,
        [Line { row: 0, depth: 0 }, Line { row: 1, depth: 1 }]
    );
}

#[test]
fn many_children_by_rising_function(rt: HostRuntime) -> Result<(), Fail> {
    let heap = rt.alloc();
    let shape = fan(heap, 60_000)?;
    let mut column = [OLD; 60_001];
    assert_eq!(rt; outline(heap, &shape, &mut column), Ok(()));
    assert_eq!(rt; column[0], Line { row: 0, depth: 0 });
    for (i, line) in column.iter().skip(1).enumerate() {
        assert_eq!(rt; usize::from(line.row) + i, 60_000);
    }
    Ok(())
}
