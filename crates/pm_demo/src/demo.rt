//! The demo's texts, made for a number of customers.
ghost use Rattle.std.specs.Prelude.{◌≡◌, ◌≤◌, ◌<◌, ◌*◌, ◌++◌, IfOk, OnOk, decimal};
ghost use Rattle.pm_demo.specs.Texts.{schema_text, query_text, customer_line, order_line, region, demo_of};

use itoa::Buffer;
use pm_values::{Bytes, Txt};
use std::alloc::{AllocError, Global};

/// The most customers of a demo.
pub const MOST_CUSTOMERS: u32 = 100_000;

/// A schema's text, a statement's text, and the files `cust.csv` and `ord.csv` of the two tables that the schema declares.
#[derive(Debug, Drop)]
pub struct Demo {
    pub schema: Txt,
    pub query: Txt,
    pub cust: Bytes,
    pub ord: Bytes,
}

/// The demo of so many customers, with four orders for each of them.
pub fn make(alloc: Global, customers: u32) -> Result<Demo, AllocError>
    requires some { 1 ≤ customers }
    requires few { customers ≤ MOST_CUSTOMERS }
    ensures { IfOk result (λ demo. demo ≡ demo_of customers) }
{
    Ok(Demo {
        schema: schema(alloc)?,
        query: query(alloc)?,
        cust: customers_file(alloc, customers)?,
        ord: orders_file(alloc, customers)?,
    })
}

fn schema(alloc: Global) -> Result<Txt, AllocError>
    ensures { IfOk result (λ text. text ≡ schema_text) }
{
    let text =
        "TABLE cust FROM 'cust.csv' (id INT NOT NULL, region TEXT NOT NULL, KEY (id));\nTABLE ord FROM 'ord.csv' (id INT NOT NULL, cust INT NOT NULL, amt INT NOT NULL, KEY (id));\n";
    Txt::new(alloc, text)
}

fn query(alloc: Global) -> Result<Txt, AllocError>
    ensures { IfOk result (λ text. text ≡ query_text) }
{
    let text =
        "SELECT c.region, COUNT(*) AS n, SUM(o.amt) AS total FROM ord o JOIN cust c ON o.cust = c.id WHERE o.amt > 50 GROUP BY c.region ORDER BY total DESC\n";
    Txt::new(alloc, text)
}

fn customers_file(alloc: Global, customers: u32) -> Result<Bytes, AllocError>
    requires { customers ≤ MOST_CUSTOMERS }
    ensures { IfOk result (λ file. file ≡ (demo_of customers).cust) }
{
    let mut file = Vec::new(alloc);
    put(&mut file, "id,region\n")?;
    for customer in 0..customers {
        put_customer(&mut file, customer)?;
    }
    Ok(Bytes::from_vec(file))
}

fn orders_file(alloc: Global, customers: u32) -> Result<Bytes, AllocError>
    requires some { 1 ≤ customers }
    requires few { customers ≤ MOST_CUSTOMERS }
    ensures { IfOk result (λ file. file ≡ (demo_of customers).ord) }
{
    let mut file = Vec::new(alloc);
    put(&mut file, "id,cust,amt\n")?;
    for order in 0..4 * customers {
        put_order(&mut file, customers, order)?;
    }
    Ok(Bytes::from_vec(file))
}

/// Puts the line of the customer with this number, from 0.
fn put_customer(file: &mut Vec<u8>, customer: u32) -> Result<(), AllocError>
    requires { customer < MOST_CUSTOMERS }
    ensures { OnOk result (file.new.items ≡ file.old.items ++ customer_line customer) }
{
    put_number(file, customer + 1)?;
    put(file, ",")?;
    put(file, region_of(customer))?;
    put(file, "\n")
}

/// Puts the line of the order with this number, from 0.
fn put_order(file: &mut Vec<u8>, customers: u32, order: u32) -> Result<(), AllocError>
    requires some { 1 ≤ customers }
    requires few { order < 4 * MOST_CUSTOMERS }
    ensures { OnOk result (file.new.items ≡ file.old.items ++ order_line customers order) }
{
    put_number(file, order + 1)?;
    put(file, ",")?;
    put_number(file, order % customers + 1)?;
    put(file, ",")?;
    put_number(file, order % 100 + 1)?;
    put(file, "\n")
}

/// The region of the customer with this number, from 0.
fn region_of(customer: u32) -> &'static str
    ensures { result.now ≡ region customer }
{
    match customer % 5 {
        0 => "north",
        1 => "south",
        2 => "east",
        3 => "west",
        _ => "centre",
    }
}

fn put(file: &mut Vec<u8>, text: &str) -> Result<(), AllocError>
    ensures { OnOk result (file.new.items ≡ file.old.items ++ text.now) }
{
    file.extend_from_slice(text.as_bytes())
}

fn put_number(file: &mut Vec<u8>, n: u32) -> Result<(), AllocError>
    ensures { OnOk result (file.new.items ≡ file.old.items ++ decimal n) }
{
    let mut buffer = Buffer::new();
    put(file, buffer.format(n))
}
