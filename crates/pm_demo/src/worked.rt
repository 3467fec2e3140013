//! Worked examples of the demo's texts.
ghost use Rattle.std.specs.Prelude.{◌≡◌, ◌∷◌, [], codes};
ghost use Rattle.pm_demo.specs.Texts.{demo_of, customer_line, order_line};

/// The files of the demo of two customers, and some lines of larger ones.
pub fn texts_worked()
    ensures customers { (demo_of 2).cust ≡ codes "id,region\n1,north\n2,south\n" }
    ensures orders { (demo_of 2).ord ≡ codes "id,cust,amt\n1,1,1\n2,2,2\n3,1,3\n4,2,4\n5,1,5\n6,2,6\n7,1,7\n8,2,8\n" }
    ensures centre { customer_line 99999 ≡ codes "100000,centre\n" }
    ensures last { order_line 1000 3999 ≡ codes "4000,1000,100\n" }
{}
