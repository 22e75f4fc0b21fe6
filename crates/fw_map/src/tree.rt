ghost use Rattle.std.specs.Prelude.{◌≡◌, ◌+◌, ◌<◌, ◌≤◌, ℕ, List, Some, None, IfSome, IfNone, true, slice_set, replicate};
ghost use Rattle.fw_tree.specs.Numbers.{number_at, is_there};

/// Who hangs on whom on a bus. The lists are indexed by node.
#[derive(Clone, Copy)]
pub struct Tree {
    /// How many nodes there are.
    pub count: u8,
    /// Each node's parent; None for the root and after the last node.
    pub parent: [Option<u8>; 63],
    /// The port of the parent at which the node hangs; None for the root and after the last node.
    pub parent_port: [Option<u8>; 63],
    /// The node's own port to its parent; None for the root and after the last node.
    pub own_port: [Option<u8>; 63],
    /// sp of the node's self-ID packet: 0, 1, 2 for 100, 200, 400 Mbit/s; 0 after the last node.
    pub sp: [u8; 63],
}

impl Tree {
    ghost use Rattle.fw_map.specs.Walks.{IsLeast, IsRebuilt, Walk};

    /// Nodes of which none hangs on another yet.
    pub(crate) fn bare(count: u8) -> Tree
        ensures { result ≡ record { count = count; parent = replicate 63 None; parent_port = replicate 63 None; own_port = replicate 63 None; sp = replicate 63 0 } }
    {
        Tree {
            count,
            parent: [None; 63],
            parent_port: [None; 63],
            own_port: [None; 63],
            sp: [0; 63],
        }
    }

    /// The highest node below this one that has no parent.
    pub(crate) fn open_below(&self, node: u8) -> Option<u8>
        requires { node ≤ 63 }
        ensures low { IfSome result (λ c. c < node) }
        ensures open { IfSome result (λ c. number_at self.now.parent c ≡ None) }
        ensures highest { IfSome result (λ c. (x : ℕ) → c < x → x < node → is_there (number_at self.now.parent x) ≡ true) }
        ensures none { IfNone result ((x : ℕ) → x < node → is_there (number_at self.now.parent x) ≡ true) }
    {
        for c in (0..node).rev() {
            if self.parent[usize::from(c)].is_none() {
                return Some(c);
            }
        }
        None
    }

    /// The child hangs on the node from now on, at this port of it.
    pub(crate) fn join(&mut self, child: u8, node: u8, port: u8)
        requires { child < 63 }
        ensures { self.new ≡ record self.old { parent = slice_set self.old.parent child (Some node); parent_port = slice_set self.old.parent_port child (Some port) } }
    {
        self.parent[usize::from(child)] = Some(node);
        self.parent_port[usize::from(child)] = Some(port);
    }

    // The parent of a node that is not the last.
    fn parent_of(&self, node: u8) -> u8
        requires tree { IsRebuilt self.now }
        requires node { node + 1 < self.now.count }
        ensures parent { number_at self.now.parent node ≡ Some result }
        ensures higher { node < result }
        ensures low { result < self.now.count }
    {
        match self.parent[usize::from(node)] {
            Some(parent) => parent,
            None => unreachable!(),
        }
    }

    /// The least sp of the nodes on the walk between two nodes, both included. The tree came from `rebuild`.
    pub fn least_speed(&self, a: u8, b: u8) -> u8
        requires tree { IsRebuilt self.now }
        requires a { a < self.now.count }
        requires b { b < self.now.count }
        ensures walk { (nodes : List ℕ) × Walk self.now a b nodes }
        ensures least { (nodes : List ℕ) → Walk self.now a b nodes → IsLeast self.now.sp nodes result }
    {
        let mut a = a;
        let mut b = b;
        let mut least = self.sp[usize::from(a)].min(self.sp[usize::from(b)]);
        while a != b {
            if a < b {
                a = self.parent_of(a);
                least = least.min(self.sp[usize::from(a)]);
            } else {
                b = self.parent_of(b);
                least = least.min(self.sp[usize::from(b)]);
            }
        }
        least
    }
}
