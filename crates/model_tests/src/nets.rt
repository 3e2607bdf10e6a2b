//! The nets of Click configurations.

use click_model::{click_net, read_click};
use sefl_syntax::print_net;
use std::alloc::Global;
use std::process::Abort;

/// The text of the net that a configuration stands for.
fn net_of(rt: &impl Abort, alloc: Global, text: &str) -> String {
    let config = read_click(alloc, text.as_bytes())
        .ok()
        .expect(rt, "a configuration");
    let net = click_net(alloc, &config).ok().expect(rt, "memory");
    print_net(alloc, &net).ok().expect(rt, "memory")
}

const TTL: &str = "node d 1 -> 2 {
  in 0 {
    if head L3+64:8 <= 1 {
      forward 1;
    } else {
      set head L3+64:8 = head L3+64:8 - 1;
      forward 0;
    }
  }
}
node e 1 -> 0 {
  in 0 {
    fail \"drop\";
  }
}
link d.1 -> e.0;
";

const TEE: &str = "node a 1 -> 3 {
  in 0 {
    fork 0, 1, 2;
  }
}
node b 1 -> 0 {
  in 0 {
    fail \"drop\";
  }
}
link a.0 -> b.0;
link a.2 -> b.0;
";

const FILTER: &str = "node f 1 -> 1 {
  in 0 {
    if head L3+96:32 in {167772160..184549375} and head L3+72:8 == 6 {
      forward 0;
    } else {
    }
    if true {
      fail \"drop\";
    } else {
    }
    fail \"drop\";
  }
}
";

const CHAIN: &str = "node m 1 -> 1 {
  in 0 {
    allocate local m48:48;
    set local m48:48 = head L2+0:48;
    set head L2+0:48 = head L2+48:48;
    set head L2+48:48 = local m48:48;
    deallocate local m48:48;
    forward 0;
  }
}
node s 1 -> 1 {
  in 0 {
    deallocate head L2+0:48;
    deallocate head L2+48:48;
    deallocate head L2+96:16;
    untag L2;
    forward 0;
  }
}
node c 1 -> 2 {
  in 0 {
    if head L3+72:8 in {6, 17} and head L4+16:16 == 53 {
      forward 0;
    } else {
    }
    if head L3+128:32 == 16909060 {
      forward 1;
    } else {
    }
    fail \"drop\";
  }
}
node t 1 -> 1 {
  in 0 {
    fork 0;
  }
}
node x 1 -> 1 {
  in 0 {
    retag L2 = L3-112;
    allocate head L2+0:48;
    set head L2+0:48 = 2;
    allocate head L2+48:48;
    set head L2+48:48 = 1;
    allocate head L2+96:16;
    set head L2+96:16 = 2048;
    forward 0;
  }
}
link m.0 -> s.0;
link s.0 -> c.0;
link c.1 -> x.0;
link c.0 -> t.0;
";

const MIRROR: &str = "node i 1 -> 1 {
  in 0 {
    allocate local m32:32;
    set local m32:32 = head L3+96:32;
    set head L3+96:32 = head L3+128:32;
    set head L3+128:32 = local m32:32;
    deallocate local m32:32;
    if head L3+72:8 in {6, 17} {
      allocate local m16:16;
      set local m16:16 = head L4+0:16;
      set head L4+0:16 = head L4+16:16;
      set head L4+16:16 = local m16:16;
      deallocate local m16:16;
    } else {
    }
    forward 0;
  }
}
node d 1 -> 1 {
  in 0 {
    if head L3+64:8 <= 1 {
      fail \"drop\";
    } else {
      set head L3+64:8 = head L3+64:8 - 1;
      forward 0;
    }
  }
}
link i.0 -> d.0;
";

#[test]
fn configurations_have_their_nets(rt: HostRuntime) {
    let rows = [
        ("d :: DecIPTTL; e :: Discard; d [1] -> e;", TTL),
        ("a :: Tee; b :: Discard; a -> b; a [2] -> b;", TEE),
        (
            "f :: IPFilter(allow src net 10.0.0.0/8 && tcp, deny -);",
            FILTER,
        ),
        (
            "m :: EtherMirror -> s :: Strip(0xE) -> [0] c :: IPClassifier(dst port 53, // dns\n dst host 1.2.3.4) [1] -> x;\nc -> t :: Tee(/* one */ 1);\nx :: EtherEncap(0x0800, 0:0:0:0:0:1, 00:00:00:00:00:02)",
            CHAIN,
        ),
        ("i :: IPMirror()\t->\r\nd; d :: DecIPTTL( );", MIRROR),
    ];
    for (text, wanted) in &rows {
        let net = net_of(&rt, rt.alloc(), text);
        assert_eq!(&rt; net.as_str(), *wanted);
    }
}
