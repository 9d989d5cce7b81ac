//! Copies with ample memory: of guards, nodes, operations and plans, in each of their forms.
use plan_ir::{
    Argument, Arguments, Condition, Conditions, Conn, Directives, Expanded, FilePlace, Guard, Ids,
    Kind, NoMemory, Node, Nodes, NormalList, NormalPlan, NormalStep, NormalSteps, ReaderList,
    ReaderPlan, ReaderStep, ReaderSteps, TypeTree, ValueTree, VariableDefs, Words,
};
use std::alloc::Global;
use std::test::Fail;

const PLACE: FilePlace = FilePlace {
    file: 0,
    line: 2,
    column: 5,
};

/// The type `User` alone.
fn types(alloc: Global) -> Result<Ids, NoMemory> {
    let mut names = Vec::new(alloc);
    names.push(Words::new(alloc, "User")?)?;
    Ids::sort(names)
}

/// `(size: 2)`.
fn arguments(alloc: Global) -> Result<Arguments, NoMemory> {
    let mut arguments = Arguments::new(alloc);
    arguments.push(Argument {
        name: Words::new(alloc, "size")?,
        value: ValueTree::Int(2),
    })?;
    Ok(arguments)
}

/// The connection `K_friends`.
fn connection(alloc: Global) -> Result<Conn, NoMemory> {
    Ok(Conn {
        key: Words::new(alloc, "K_friends")?,
        filters: None,
    })
}

/// `... on User @include(if: true) @skip(if: $x)`.
fn guard(alloc: Global) -> Result<Guard, NoMemory> {
    let mut conditions = Conditions::new(alloc);
    conditions.push(Condition {
        skip: false,
        value: ValueTree::Bool(true),
    })?;
    conditions.push(Condition {
        skip: true,
        value: ValueTree::Variable(Words::new(alloc, "x")?),
    })?;
    Ok(Guard {
        types: Some(types(alloc)?),
        conditions,
    })
}

#[test]
fn guards_are_copied(rt: HostRuntime) -> Result<(), Fail> {
    let alloc = rt.alloc();
    let guard = guard(alloc)?;
    let copy = guard.copy()?;
    assert!(rt; matches!(&copy.types, Some(types) if types.contains("User")));
    assert!(rt;
        matches!(
            copy.conditions.as_slice(),
            [
                Condition {
                    skip: false,
                    value: ValueTree::Bool(true)
                },
                Condition {
                    skip: true,
                    value: ValueTree::Variable(_)
                },
            ]
        )
    );
    let always = Guard {
        types: None,
        conditions: Conditions::new(alloc),
    };
    let copy = always.copy()?;
    assert!(rt; copy.types.is_none() && copy.conditions.is_empty());
    Ok(())
}

/// `f: friends(size: 2)` with what stands below it.
fn field(alloc: Global, connection: Option<Conn>, selections: Nodes) -> Result<Node, NoMemory> {
    Ok(Node::Field {
        response: Words::new(alloc, "f")?,
        name: Words::new(alloc, "friends")?,
        arguments: arguments(alloc)?,
        directives: Directives::new(alloc),
        connection,
        of: TypeTree::Named(Words::new(alloc, "Friends")?),
        selections,
        place: PLACE,
    })
}

/// A field with nothing below it.
fn one_field(alloc: Global) -> Result<Nodes, NoMemory> {
    let mut nodes = Nodes::new(alloc);
    nodes.push(field(alloc, None, Nodes::new(alloc))?)?;
    Ok(nodes)
}

/// `...`, on a type or on none, with nothing below it.
fn inline(alloc: Global, on: Option<Words>) -> Node {
    Node::Inline {
        on,
        directives: Directives::new(alloc),
        selections: Nodes::new(alloc),
        place: PLACE,
    }
}

#[test]
fn fields_are_copied(rt: HostRuntime) -> Result<(), Fail> {
    let alloc = rt.alloc();
    let field = field(alloc, Some(connection(alloc)?), one_field(alloc)?)?;
    let copy = field.copy()?;
    assert!(rt;
        matches!(
        &copy,
        Node::Field { connection: Some(conn), selections, .. }
            if conn.key.as_str() == "K_friends" && selections.len() == 1
    )
    );
    Ok(())
}

#[test]
fn inline_fragments_are_copied(rt: HostRuntime) -> Result<(), Fail> {
    let alloc = rt.alloc();
    let mut nodes = Nodes::new(alloc);
    nodes.push(inline(alloc, Some(Words::new(alloc, "User")?)))?;
    nodes.push(inline(alloc, None))?;
    let copy = nodes.copy()?;
    assert!(rt;
        matches!(
        copy.as_slice(),
        [Node::Inline { on: Some(on), .. }, Node::Inline { on: None, .. }]
            if on.as_str() == "User"
    )
    );
    Ok(())
}

#[test]
fn operations_are_copied(rt: HostRuntime) -> Result<(), Fail> {
    let alloc = rt.alloc();
    let expanded = Expanded {
        kind: Some(Kind::Mutation),
        name: Words::new(alloc, "M")?,
        root: Words::new(alloc, "Mutation")?,
        variables: VariableDefs::new(alloc),
        directives: Directives::new(alloc),
        selections: one_field(alloc)?,
    };
    let copy = expanded.copy()?;
    assert!(rt; matches!(copy.kind, Some(Kind::Mutation)));
    assert!(rt; copy.name.as_str() == "M" && copy.root.as_str() == "Mutation");
    assert_eq!(rt; copy.selections.len(), 1);
    Ok(())
}

/// `__typename` and a leaf.
fn normal_leaves(alloc: Global) -> Result<NormalPlan, NoMemory> {
    let mut steps = NormalList::new(alloc);
    steps.push(NormalStep::Typename {
        response: Words::new(alloc, "__typename")?,
    })?;
    steps.push(NormalStep::Leaf {
        response: Words::new(alloc, "s")?,
        name: Words::new(alloc, "size")?,
        arguments: Arguments::new(alloc),
    })?;
    let steps = steps.share(alloc)?;
    Ok(NormalPlan { steps })
}

/// The connection `f: friends(size: 2)` of leaves.
fn normal_object(alloc: Global) -> Result<NormalStep, NoMemory> {
    Ok(NormalStep::Object {
        response: Words::new(alloc, "f")?,
        name: Words::new(alloc, "friends")?,
        arguments: arguments(alloc)?,
        many: true,
        types: types(alloc)?,
        identified: Ids::new(alloc),
        open_type: false,
        connection: Some(connection(alloc)?),
        child: normal_leaves(alloc)?,
    })
}

/// A connection, and no step behind a guard.
fn normal_plan(alloc: Global) -> Result<NormalPlan, NoMemory> {
    let mut steps = NormalList::new(alloc);
    steps.push(normal_object(alloc)?)?;
    let guard = guard(alloc)?;
    let child = NormalPlan {
        steps: NormalSteps::none(alloc)?,
    };
    steps.push(NormalStep::Guarded { guard, child })?;
    let steps = steps.share(alloc)?;
    Ok(NormalPlan { steps })
}

/// Whether steps are `__typename` and the leaf `size`.
fn are_normal_leaves(steps: &NormalSteps) -> bool {
    matches!(
        steps.as_slice(),
        [NormalStep::Typename { .. }, NormalStep::Leaf { name, .. }] if name.as_str() == "size"
    )
}

#[test]
fn plans_that_normalize_are_copied(rt: HostRuntime) -> Result<(), Fail> {
    let plan = normal_plan(rt.alloc())?;
    let copy = plan.copy()?;
    assert!(rt;
        matches!(
        copy.steps.as_slice(),
        [
            NormalStep::Object { many: true, open_type: false, connection: Some(_), child, .. },
            NormalStep::Guarded { child: nothing, .. },
        ] if are_normal_leaves(&child.steps) && nothing.steps.is_empty()
    )
    );
    Ok(())
}

/// `__typename` and a leaf.
fn reader_leaves(alloc: Global) -> Result<ReaderPlan, NoMemory> {
    let mut steps = ReaderList::new(alloc);
    steps.push(ReaderStep::Typename {
        response: Words::new(alloc, "__typename")?,
    })?;
    steps.push(ReaderStep::Leaf {
        response: Words::new(alloc, "s")?,
        name: Words::new(alloc, "size")?,
        arguments: Arguments::new(alloc),
    })?;
    let steps = steps.share(alloc)?;
    Ok(ReaderPlan { steps })
}

/// The connection `f: friends(size: 2)` of leaves.
fn reader_object(alloc: Global) -> Result<ReaderStep, NoMemory> {
    Ok(ReaderStep::Object {
        response: Words::new(alloc, "f")?,
        name: Words::new(alloc, "friends")?,
        arguments: arguments(alloc)?,
        many: true,
        types: types(alloc)?,
        identified: Ids::new(alloc),
        open_type: false,
        connection: Some(connection(alloc)?),
        child: reader_leaves(alloc)?,
    })
}

/// A connection, and no step behind a guard.
fn reader_plan(alloc: Global) -> Result<ReaderPlan, NoMemory> {
    let mut steps = ReaderList::new(alloc);
    steps.push(reader_object(alloc)?)?;
    let guard = guard(alloc)?;
    let child = ReaderPlan {
        steps: ReaderSteps::none(alloc)?,
    };
    steps.push(ReaderStep::Guarded { guard, child })?;
    let steps = steps.share(alloc)?;
    Ok(ReaderPlan { steps })
}

/// Whether steps are `__typename` and the leaf `size`.
fn are_reader_leaves(steps: &ReaderSteps) -> bool {
    matches!(
        steps.as_slice(),
        [ReaderStep::Typename { .. }, ReaderStep::Leaf { name, .. }] if name.as_str() == "size"
    )
}

#[test]
fn plans_that_read_are_copied(rt: HostRuntime) -> Result<(), Fail> {
    let plan = reader_plan(rt.alloc())?;
    let copy = plan.copy()?;
    assert!(rt;
        matches!(
        copy.steps.as_slice(),
        [
            ReaderStep::Object { many: true, open_type: false, connection: Some(_), child, .. },
            ReaderStep::Guarded { child: nothing, .. },
        ] if are_reader_leaves(&child.steps) && nothing.steps.is_empty()
    )
    );
    Ok(())
}

/// `...F(size: 2)`, with the plan of the fragment or without.
fn pointer(alloc: Global, inline: Option<ReaderPlan>) -> Result<ReaderStep, NoMemory> {
    Ok(ReaderStep::Pointer {
        fragment: Words::new(alloc, "F")?,
        arguments: arguments(alloc)?,
        inline,
    })
}

#[test]
fn pointers_are_copied(rt: HostRuntime) -> Result<(), Fail> {
    let alloc = rt.alloc();
    let mut steps = ReaderList::new(alloc);
    steps.push(pointer(alloc, None)?)?;
    steps.push(pointer(alloc, Some(reader_leaves(alloc)?))?)?;
    let steps = steps.share(alloc)?;
    let copy = steps.copy()?;
    assert!(rt;
        matches!(
        copy.as_slice(),
        [
            ReaderStep::Pointer { inline: None, .. },
            ReaderStep::Pointer { fragment, inline: Some(plan), .. },
        ] if fragment.as_str() == "F" && are_reader_leaves(&plan.steps)
    )
    );
    Ok(())
}
