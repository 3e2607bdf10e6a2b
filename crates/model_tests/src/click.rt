//! Click configurations that are refused.

use click_model::ClickFault::{
    BadArgument, BadLine, Conflict, Limit, NoClass, NoElement, PortClash,
};
use click_model::{ClickFault, read_click};
use std::alloc::Global;

fn fault_of(alloc: Global, text: &str) -> Option<ClickFault> {
    read_click(alloc, text.as_bytes()).err()
}

#[test]
fn the_first_fault_is_told(rt: HostRuntime) {
    let rows = [
        ("", None),
        ("a :: Tee;\n\n// b ->\n/* a -> a", None),
        ("a :: Tee(", Some(BadLine { line: 1 })),
        ("a :: Foo;\nb ->", Some(BadLine { line: 2 })),
        ("a :: Tee;;", Some(BadLine { line: 1 })),
        ("a :: Tee; a [4294967296] -> a;", Some(BadLine { line: 1 })),
        ("a :: Foo;", Some(NoClass { line: 1 })),
        ("a -> b;", Some(NoElement { line: 1 })),
        ("a;", Some(NoElement { line: 1 })),
        ("a :: Discard; a -> a;", Some(PortClash { line: 1 })),
        ("a :: Tee; a -> [1] a;", Some(PortClash { line: 1 })),
        ("a :: Tee(2); a [2] -> a;", Some(PortClash { line: 1 })),
        ("a :: Tee; a [1024] -> a;", Some(PortClash { line: 1 })),
        ("a :: DecIPTTL; a [2] -> a;", Some(PortClash { line: 1 })),
        ("a :: Tee;\na -> a -> a;", Some(PortClash { line: 2 })),
        (
            "a :: Tee;\nb :: Tee;\na :: Discard;",
            Some(Conflict {
                line: 3,
                earlier: 1,
            }),
        ),
        (
            "b -> c; a :: Tee; a :: Foo;",
            Some(Conflict {
                line: 1,
                earlier: 1,
            }),
        ),
        ("a :: Tee(0); b :: Foo;", Some(NoClass { line: 1 })),
        ("a :: Tee(0);\nb :: Foo;", Some(BadArgument { line: 1 })),
        ("a -> b;\nb :: Foo;", Some(NoElement { line: 1 })),
        ("b :: Tee(0);\nb [9] -> b;", Some(BadArgument { line: 1 })),
        ("c; b :: Discard; b -> b;", Some(PortClash { line: 1 })),
    ];
    for (text, wanted) in &rows {
        assert_eq!(&rt; fault_of(rt.alloc(), text), *wanted);
    }
}

#[test]
fn arguments_that_a_class_does_not_take_are_refused(rt: HostRuntime) {
    let rows = [
        "DecIPTTL(1)",
        "EtherMirror(-)",
        "IPMirror(,)",
        "Discard(all)",
        "Tee(0)",
        "Tee(1025)",
        "Tee(2 2)",
        "Tee(2,2)",
        "Tee(x)",
        "Strip",
        "Strip(4)",
        "Strip(15)",
        "Strip(14,)",
        "EtherEncap",
        "EtherEncap(65536, 0:0:0:0:0:1, 0:0:0:0:0:2)",
        "EtherEncap(0x0800, 0:0:0:0:0:1)",
        "EtherEncap(0x0800, 0:0:0:0:0:1, 0:0:0:0:2)",
        "EtherEncap(0x0800, 0:0:0:0:0:1, 0:0:0:0:0:2, 3)",
        "IPFilter",
        "IPFilter()",
        "IPFilter(/* tcp */)",
        "IPFilter(allow)",
        "IPFilter(tcp)",
        "IPFilter(permit tcp)",
        "IPFilter(allow tcp,)",
        "IPFilter(allow tcp udp)",
        "IPFilter(allow tcp &&)",
        "IPFilter(allow && tcp)",
        "IPFilter(allow src host 1.2.3.256)",
        "IPFilter(allow src host 1.2.3)",
        "IPFilter(allow src net 1.2.3.4)",
        "IPFilter(allow dst net 1.2.3.4/33)",
        "IPFilter(allow src port 65536)",
        "IPFilter(allow src tcp 7)",
        "IPFilter(allow ip proto 256)",
        "IPFilter(allow ip tcp)",
        "IPClassifier",
        "IPClassifier(allow tcp)",
        "IPClassifier(tcp, )",
    ];
    for arguments in &rows {
        let text = format!(in rt.alloc(); "a :: {arguments};").expect(&rt, "memory");
        assert_eq!(&rt; fault_of(rt.alloc(), &text), Some(BadArgument { line: 1 }));
    }
}

#[test]
fn the_declaration_past_the_limit_is_told(rt: HostRuntime) {
    let mut text = String::new(rt.alloc());
    for number in 0..10_001_u32 {
        let line = format!(in rt.alloc(); "e{number} :: Tee;\n").expect(&rt, "memory");
        text.push_str(&line).expect(&rt, "memory");
    }
    assert_eq!(&rt; fault_of(rt.alloc(), &text), Some(Limit { line: 10_001 }));
}
