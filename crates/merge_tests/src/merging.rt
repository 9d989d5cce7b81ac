//! V24: which fields cannot merge (GraphQL, October 2021, section 5.3.2).
use crate::trees::compare;
use std::test::Fail;

/// Names and shapes of fields in one set.
const FIELDS: &str = "ok||a { x:a x:a }
V24 3||a { x:a x:b }
V24 3||a { x:a x:b x:a }
V24 4||a { x:a x:a x:b }
V24 3||a { x:a x:e }
V24 3||a { x:a x:n }
V24 3||a { x:a x:l }
V24 3||a { x:a x:c { a } }
V24 4||a { x:c { a } x:a }
ok||a { x:a y:b }
V24 4||i { a } i { a:b }
V24 2|on I|x:a x:b";

/// Arguments are a set; values are compared as they are written.
const ARGUMENTS: &str = "ok||a { x:a(p:1,q:2) x:a(p:1,q:2) }
ok||a { x:a(p:1,q:2) x:a(q:2,p:1) }
V24 3||a { x:a(p:1,q:2) x:a(q:1,p:2) }
V24 3||a { x:a(p:1,q:2) x:a(p:1) }
V24 3||a { x:a(p:1) x:a(p:1,q:2) }
V24 3||a { x:a(p:1) x:a }
V24 3||a { x:a x:a(p:null) }
V24 3||a { x:a(p:1) x:a(p:2) }
ok|$v:Int|a { x:a(p:$v) x:a(p:$v) }
V24 3|$v:Int,$w:Int|a { x:a(p:$v) x:a(p:$w) }
ok||a { x:a(p:0) x:a(p:-0) }
V24 3||a { x:a(o:{x:1,y:2}) x:a(o:{y:2,x:1}) }
ok||a { x:a(o:{x:1,y:2}) x:a(o:{x:1,y:2}) }
V24 3||a { x:a(o:{z:[1,2]}) x:a(o:{z:[1,3]}) }
V24 3||a { x:a(o:{z:[1,2]}) x:a(o:{z:[1]}) }
ok||a { x:a(o:{z:[1,2]}) x:a(o:{z:[1,2]}) }
ok||a { x:a@skip(if:true) x:a@skip(if:false) }";

/// Fields on two object types need one shape alone.
const OBJECTS: &str = "ok||i { ...A { x:a } ...B { x:b } }
V24 5||i { ...A { x:a } ...B { x:e } }
V24 5||i { ...A { x:a } ...B { x:n } }
V24 5||i { ...A { x:a } ...B { x:l } }
V24 5||i { ...A { x:a } ...B { x:c { a } } }
V24 5||i { ...A { x:a } ...A { x:b } }
V24 6||i { ...A { x:a } ...B { x:b } x:a }
V24 6||i { ...A { x:a } ...B { x:b } x:a ...A { x:a } }
V24 5||i { ...I { x:a } ...B { x:b } }
V24 5||i { ... { x:a } ... { x:b } }
ok||i { ...A { x:a } ...B { x:b } ...A { x:a } ...B { x:b } }
V24 9||i { ...A { x:a } ...B { x:b } ...A { x:a } ...B { x:a } }
V24 4||a { x:a ...I { x:b } }";

/// The sub-selections of fields that are merged.
const BELOW: &str = "V24 7||a { x:c { c { k:a } } x:c { c { k:b } } }
V24 7||a { x:c { c { k:a } } x:c { c { k:n } } }
V24 7||a { x:c { c { k:a } } x:c { c { k:l } } }
V24 7||a { x:c { c { k:a } } x:c { c { k:e } } }
V24 7||a { x:c { c { k:a(p:1) } } x:c { c { k:a(p:2) } } }
V24 4||a { x:c { k:a } x:d { k:b } }
V24 5||#10 a { x:c { k:a } #20 x:d { #5 k:b } }
ok||i { ...A { c { k:a } } ...B { c { k:b } } }
V24 7||i { ...A { c { k:a } } ...B { c { k:n } } }
V24 9||i { c { k:a } ...A { c { k:a } } ...B { c { k:b } } }
V24 12||i { ...A { y:c { ...A { z:a } } } ...B { y:c { ...A { z:b } } } y:c { ...A { z:b } } }
ok||i { ...A { y:c { ...A { z:a } } } ...B { y:c { ...A { z:b } } } y:c { ...B { z:b } } }
ok||i { ...A { c { ...A { k:a } ...B { k:b } } } ...B { c { ...A { k:b } ...B { k:a } } } }
V24 14||i { ...A { c { ...A { k:a } } } ...B { c { ...A { k:b } } } c { ...B { k:a } ...A { k:b } } }
V24 11||i { ...A { c { ...A { k:a } } } ...B { c { ...B { k:b } } } c { k:a } }
V24 11||i { c { k:a } ...A { c { ...A { k:a } } } ...B { c { ...B { k:b } } } }";

#[test]
fn fields_are_merged(rt: HostRuntime) -> Result<(), Fail> {
    compare(&rt, rt.alloc(), FIELDS)
}

#[test]
fn arguments_are_merged(rt: HostRuntime) -> Result<(), Fail> {
    compare(&rt, rt.alloc(), ARGUMENTS)
}

#[test]
fn object_types_are_kept_apart(rt: HostRuntime) -> Result<(), Fail> {
    compare(&rt, rt.alloc(), OBJECTS)
}

#[test]
fn sets_below_are_merged(rt: HostRuntime) -> Result<(), Fail> {
    compare(&rt, rt.alloc(), BELOW)
}
