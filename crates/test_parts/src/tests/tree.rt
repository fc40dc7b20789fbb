//! Calls on trees, answered as by hand.
ghost use Rattle.std.specs.Prelude.{◌≡◌};

use aps_model::{Name, PartitionId, PartitionRow, TreeRefusal};
use aps_tree::Tree;
use std::alloc::Global;
use std::process::Abort;

fn id(p: usize) -> PartitionId {
    PartitionId::at(p.min(31))
}

fn name(rt: &impl Abort, text: &[u8]) -> Name {
    Name::new(text).expect(rt, "a name")
}

/// A partition to create: its parent, its budget, its critical budget and its maximum.
type Child = (PartitionId, u16, u64, u16);

/// Creates a partition of this name, or tells why not.
fn create(tree: &mut Tree, name: Name, child: Child) -> Result<PartitionId, TreeRefusal>
    ensures { tree.new.parts ≡ tree.old.parts }
{
    let (parent, budget, critical, max) = child;
    tree.create(name, parent, budget, critical, max)
}

/// Sets the budget and the maximum of a partition where they are given, or tells why not.
fn modify(
    tree: &mut Tree,
    p: PartitionId,
    budget: Option<u16>,
    max: Option<u16>,
) -> Result<(), TreeRefusal> {
    tree.modify(p, budget, None, max)
}

/// A tree in which `A` has 50 parts.
fn with_a(rt: &impl Abort, alloc: Global) -> Tree {
    let mut tree = Tree::new(alloc, 100).expect(rt, "memory");
    let created = create(&mut tree, name(rt, b"A"), (id(0), 50, 0, 50));
    assert!(rt; created == Ok(id(1)));
    tree
}

#[test]
fn creates_in_turn(rt: HostRuntime) {
    let mut tree = with_a(&rt, rt.alloc());
    let taken = create(&mut tree, name(&rt, b"A"), (id(0), 1, 0, 100));
    assert!(rt; taken == Err(TreeRefusal::NameTaken));
    let bad_max = TreeRefusal::BadMax {
        partition: id(2),
        least: 20,
    };
    let children = [
        ((id(5), 1, 0, 100), Err(TreeRefusal::NoSuchPartition)),
        (
            (id(1), 51, 0, 100),
            Err(TreeRefusal::OverBudget { have: 50 }),
        ),
        (
            (id(1), 10, 64_000_000_001, 100),
            Err(TreeRefusal::BadCritical),
        ),
        ((id(1), 20, 0, 19), Err(bad_max)),
        ((id(1), 20, 0, 20), Ok(id(2))),
    ];
    for (child, wanted) in children {
        assert!(rt; create(&mut tree, name(&rt, b"B"), child) == wanted);
    }
    assert!(rt; tree.lookup(name(&rt, b"B")) == Some(id(2)));
    assert!(rt; tree.count() == 3);
}

#[test]
fn modifies_in_turn(rt: HostRuntime) {
    let mut tree = with_a(&rt, rt.alloc());
    let created = create(&mut tree, name(&rt, b"B"), (id(1), 20, 0, 20));
    assert!(rt; created == Ok(id(2)));
    let bad_max = TreeRefusal::BadMax {
        partition: id(1),
        least: 40,
    };
    let over = TreeRefusal::OverBudget { have: 50 };
    let root = modify(&mut tree, id(0), Some(50), None);
    assert!(rt; root == Err(TreeRefusal::NoParent));
    assert!(rt; modify(&mut tree, id(1), Some(81), None) == Err(over));
    assert!(rt; modify(&mut tree, id(1), None, Some(30)) == Ok(()));
    assert!(rt; modify(&mut tree, id(2), Some(10), None) == Err(bad_max));
    assert!(rt; tree.count() == 3);
}

/// A child of the root with this critical budget.
fn row(name: Name, critical: u64) -> PartitionRow {
    PartitionRow {
        name,
        parent: id(0),
        budget: 50,
        critical,
        max: 60,
    }
}

/// The tree that is made of the rows of another one.
fn copied(rt: &impl Abort, alloc: Global, tree: &Tree) -> Tree
    requires { tree.now.parts ≡ 100 }
{
    Tree::of_rows(alloc, 100, tree.rows()).expect(rt, "memory")
}

fn cancel(rt: &impl Abort, tree: &mut Tree, p: PartitionId) {
    assert!(rt; p.index() < usize::from(tree.count()));
    tree.cancel(p);
}

#[test]
fn rows_are_told_copied_and_cancelled(rt: HostRuntime) {
    let mut tree = Tree::new(rt.alloc(), 100).expect(&rt, "memory");
    let a = name(&rt, b"A");
    assert!(rt; create(&mut tree, a, (id(0), 50, 7, 60)) == Ok(id(1)));
    assert!(rt; tree.row(id(1)) == Some(row(a, 7)));
    assert!(rt; tree.row(id(2)) == None);
    let copy = copied(&rt, rt.alloc(), &tree);
    assert!(rt; copy.rows() == tree.rows());
    assert!(rt; tree.count() == 2);
    cancel(&rt, &mut tree, id(1));
    assert!(rt; tree.row(id(1)) == Some(row(a, 0)));
}

#[test]
fn a_tree_has_32_partitions(rt: HostRuntime) {
    let mut tree = Tree::new(rt.alloc(), 1000).expect(&rt, "memory");
    for i in 1..32u8 {
        let name = name(&rt, &[b'A', b'0' + i / 10, b'0' + i % 10]);
        let created = create(&mut tree, name, (id(0), 1, 0, 1000));
        assert!(rt; created == Ok(PartitionId::at(i as usize)));
    }
    let one_more = create(&mut tree, name(&rt, b"B"), (id(0), 970, 0, 0));
    assert!(rt; one_more == Err(TreeRefusal::TooMany));
    assert!(rt; tree.count() == 32);
}
