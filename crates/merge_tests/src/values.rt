//! V23: which values of an expanded operation are not good (this project's own; what fits and which
//! uses are allowed is GraphQL's, October 2021, sections 5.6.1 and 5.8.5).
use crate::trees::compare;
use std::test::Fail;

/// Literals, at the place of the node that has them.
const LITERALS: &str = "ok||a { a(p:1) }
V23 2||a { a(p:\"s\") }
V23 1||f(s:null)
V23 1||f(s:\"s\",t:null)
ok||a { a(o:{m:1}) }
V23 2||a { a(o:{m:[1]}) }
ok||a { a(o:{o:{o:{x:1}}}) }
V23 2||a { a(o:{o:{o:{x:\"s\"}}}) }
V23 2||a { ...@skip(if:1) { a } }
V23 2||a { a@include(if:1) }
V23 4||a { x:a x:b x:a(p:\"s\") }
V23 2||#9 a { #5 a(p:\"s\") #2 b:a(p:\"t\") }
ok|on I|a(p:\"s\")";

/// Uses of variables.
const USES: &str = "ok|$v:Int|a { a(p:$v) }
V23 2|$v:String|a { a(p:$v) }
ok|$v:Int|a { a(o:{x:$v}) }
V23 2|$v:String|a { a(o:{x:$v}) }
V23 2|$v:Int|a { a(o:{z:[$v]}) }
V23 2|$v:Int|a { a(o:{o:{o:{z:[1,$v]}}}) }
ok|$v:Int!|a { a(o:{z:[$v]}) }
V23 1|$v:String|f(s:$v)
ok|$v:String=\"x\"|f(s:$v)
V23 1|$v:String=null|f(s:$v)
ok|$v:Int|f(s:\"s\",t:$v)
V23 2|$v:Int|a { a@include(if:$v) }
V23 3|$v:Int|a { ...A { a(o:{z:[1,$v]}) } }
V23 1|$v:Int,$w:[Int!]|f(s:\"s\",u:$v)
ok|$v:Int,$w:[Int!]|f(s:\"s\",u:$w)";

#[test]
fn literals_fit(rt: HostRuntime) -> Result<(), Fail> {
    compare(&rt, rt.alloc(), LITERALS)
}

#[test]
fn uses_are_allowed(rt: HostRuntime) -> Result<(), Fail> {
    compare(&rt, rt.alloc(), USES)
}
