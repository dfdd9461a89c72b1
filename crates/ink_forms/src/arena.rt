//! The arena: the nodes of a module, and the items of their lists.
//!
//! It only grows: what stood at a number, and in a list, stays.
ghost use Rattle.std.specs.Prelude.{◌≡◌, ◌∷◌, ◌++◌, ◌<◌, ◌≤◌, ◌+◌, [], All, length, OnOk, IfOk, OnErr};
ghost use Rattle.ink_forms.specs.Built as built;
ghost use Rattle.ink_forms.specs.Fits as fits;

use crate::expr::{Argument, Arm, Expr};
use crate::list::Children;
use crate::method::{Method, Parameter};
use crate::node::{ExprNode, Form, MethodNode, Node, ParameterNode, PatternNode, WrittenNode};
use crate::pattern::{FieldPattern, Pattern};
use crate::read::{expr_of, method_of, node_at, parameter_of, pattern_of, written_of};
use crate::written::WrittenType;
use std::alloc::{AllocError, Global};

/// The greatest number of nodes.
const MOST_NODES: usize = 0x0400_0000;

/// The greatest number of items in the lists of one kind.
const MOST_ITEMS: usize = 0x8000_0000;

/// The nodes of a module in one space of numbers, each after its children, and the items of their lists.
#[derive(Drop)]
pub struct Arena {
    nodes: Vec<Node>,
    numbers: Vec<u32>,
    arms: Vec<Arm>,
    arguments: Vec<Argument>,
    fields: Vec<FieldPattern>,
    ghost fit: { fits.AreFit (built.all_lists numbers.items arms.items arguments.items fields.items) nodes.items } by { fits.AreFit-prop (built.all_lists numbers.items arms.items arguments.items fields.items) nodes.items },
    ghost few: { length nodes.items ≤ fits.most_nodes },
}

impl Arena {
    ghost use Rattle.ink_forms.specs.Views as view;

    /// An arena without nodes.
    pub fn new(alloc: Global) -> Self
        ensures { view.count result ≡ 0 }
    {
        Arena {
            nodes: Vec::new(alloc),
            numbers: Vec::new(alloc),
            arms: Vec::new(alloc),
            arguments: Vec::new(alloc),
            fields: Vec::new(alloc),
        }
    }

    /// How many nodes there are.
    pub fn len(&self) -> usize
        ensures count { result ≡ view.count self.now }
        ensures few { result ≤ view.most_nodes }
    {
        self.nodes.len()
    }

    /// An expression by its number. A number that is no expression's gives nil.
    pub fn expr(&self, number: u32) -> ExprNode
        ensures term { view.term self.now number ≡ view.expr_tree self.now number result.start result.place result.expr }
        ensures stands { view.ExprStands self.now number result.expr }
    {
        expr_of(node_at(&self.nodes, number))
    }

    /// A pattern by its number. A number that is no pattern's gives `_`.
    pub fn pattern(&self, number: u32) -> PatternNode
        ensures pattern { view.pat self.now number ≡ view.pattern_tree self.now number result.start result.place result.pattern }
        ensures stands { view.PatternStands self.now number result.pattern }
    {
        pattern_of(node_at(&self.nodes, number))
    }

    /// A written type by its number. A number that is no written type's gives one without a name.
    pub fn written(&self, number: u32) -> WrittenNode
        ensures written { view.written self.now number ≡ view.written_tree self.now number result.start result.place result.written }
        ensures stands { view.WrittenStands self.now number result.written }
    {
        written_of(node_at(&self.nodes, number))
    }

    /// A parameter by its number. A number that is no parameter's gives one without a name, whose type is what stands at
    /// that number.
    pub fn parameter(&self, number: u32) -> ParameterNode
        ensures parameter { view.parameter self.now number ≡ view.parameter_tree self.now number result.start result.place result.parameter }
        ensures stands { result.parameter.annotation ≤ number }
    {
        parameter_of(number, node_at(&self.nodes, number))
    }

    /// A method by its number. A number that is no method's gives one without parameters, whose body is what stands at
    /// that number.
    pub fn method(&self, number: u32) -> MethodNode
        ensures method { view.method self.now number ≡ view.method_tree self.now number result.start result.place result.method }
        ensures parameters { view.AreBefore self.now number result.method.parameters }
        ensures body { result.method.body ≤ number }
    {
        method_of(number, node_at(&self.nodes, number))
    }

    /// The numbers of a list.
    pub fn list(&self, children: Children) -> &[u32]
        requires { view.IsList self.now children }
        ensures { result.now ≡ view.list self.now children }
    {
        &self.numbers[children.start as usize..children.end as usize]
    }

    /// The arms of a `Match`.
    pub fn arms(&self, children: Children) -> &[Arm]
        requires { view.IsArmList self.now children }
        ensures { result.now ≡ view.arm_list self.now children }
    {
        &self.arms[children.start as usize..children.end as usize]
    }

    /// The arguments of a new object.
    pub fn arguments(&self, children: Children) -> &[Argument]
        requires { view.IsArgumentList self.now children }
        ensures { result.now ≡ view.argument_list self.now children }
    {
        &self.arguments[children.start as usize..children.end as usize]
    }

    /// The fields of a pattern.
    pub fn fields(&self, children: Children) -> &[FieldPattern]
        requires { view.IsFieldList self.now children }
        ensures { result.now ≡ view.field_list self.now children }
    {
        &self.fields[children.start as usize..children.end as usize]
    }

    /// Adds a node, and gives its number. Where there are as many nodes as there may be, it wants memory too, and takes
    /// none. After want of memory all is as it was.
    fn push(&mut self, start: u32, place: u32, form: Form) -> Result<u32, AllocError>
        requires { fits.Fits (view.lists_of self.old) (view.count self.old) form }
        ensures number { IfOk result (λ n. n ≡ view.count self.old) }
        ensures count { OnOk result (view.count self.new ≡ view.count self.old + 1) }
        ensures room { OnOk result (view.count self.old < view.most_nodes) }
        ensures items { OnOk result (view.items_of self.new ≡ view.items_of self.old
            ++ built.grow (view.lists_of self.old) (view.items_of self.old) (built.spot (view.count self.old) start place) form ∷ []) }
        ensures lists { view.lists_of self.new ≡ view.lists_of self.old }
        ensures unchanged { OnErr result (view.IsSame self.old self.new) }
        ensures keeps { view.Keeps self.old self.new }
    {
        let number = self.nodes.len();
        if number >= MOST_NODES {
            return Err(AllocError);
        }
        self.nodes.push(Node { start, place, form })?;
        Ok(number as u32)
    }

    /// Adds an expression that starts and stands at these bytes, and gives its number. The greatest number of nodes is want of
    /// memory too.
    pub fn push_expr(&mut self, start: u32, place: u32, expr: Expr) -> Result<u32, AllocError>
        requires { view.ExprStands self.old (view.count self.old) expr }
        ensures number { IfOk result (λ n. n ≡ view.count self.old) }
        ensures count { OnOk result (view.count self.new ≡ view.count self.old + 1) }
        ensures room { OnOk result (view.count self.old < view.most_nodes) }
        ensures made { IfOk result (λ n. view.term self.new n ≡ view.expr_tree self.old n start place expr) }
        ensures unchanged { OnErr result (view.IsSame self.old self.new) }
        ensures keeps { view.Keeps self.old self.new }
    {
        let number = self.push(start, place, Form::Expr(expr))?;
        Ok(number)
    }

    /// Adds a pattern that starts and stands at these bytes, and gives its number. The greatest number of nodes is want of
    /// memory too.
    pub fn push_pattern(
        &mut self,
        start: u32,
        place: u32,
        pattern: Pattern,
    ) -> Result<u32, AllocError>
        requires { view.PatternStands self.old (view.count self.old) pattern }
        ensures number { IfOk result (λ n. n ≡ view.count self.old) }
        ensures count { OnOk result (view.count self.new ≡ view.count self.old + 1) }
        ensures room { OnOk result (view.count self.old < view.most_nodes) }
        ensures made { IfOk result (λ n. view.pat self.new n ≡ view.pattern_tree self.old n start place pattern) }
        ensures unchanged { OnErr result (view.IsSame self.old self.new) }
        ensures keeps { view.Keeps self.old self.new }
    {
        let number = self.push(start, place, Form::Pattern(pattern))?;
        Ok(number)
    }

    /// Adds a written type that starts and stands at these bytes, and gives its number. The greatest number of nodes is want of
    /// memory too.
    pub fn push_written(
        &mut self,
        start: u32,
        place: u32,
        written: WrittenType,
    ) -> Result<u32, AllocError>
        requires { view.WrittenStands self.old (view.count self.old) written }
        ensures number { IfOk result (λ n. n ≡ view.count self.old) }
        ensures count { OnOk result (view.count self.new ≡ view.count self.old + 1) }
        ensures room { OnOk result (view.count self.old < view.most_nodes) }
        ensures made { IfOk result (λ n. view.written self.new n ≡ view.written_tree self.old n start place written) }
        ensures unchanged { OnErr result (view.IsSame self.old self.new) }
        ensures keeps { view.Keeps self.old self.new }
    {
        let number = self.push(start, place, Form::Written(written))?;
        Ok(number)
    }

    /// Adds a parameter that starts and stands at these bytes, and gives its number. The greatest number of nodes is want of
    /// memory too.
    pub fn push_parameter(
        &mut self,
        start: u32,
        place: u32,
        parameter: Parameter,
    ) -> Result<u32, AllocError>
        requires { parameter.annotation < view.count self.old }
        ensures number { IfOk result (λ n. n ≡ view.count self.old) }
        ensures count { OnOk result (view.count self.new ≡ view.count self.old + 1) }
        ensures room { OnOk result (view.count self.old < view.most_nodes) }
        ensures made { IfOk result (λ n. view.parameter self.new n ≡ view.parameter_tree self.old n start place parameter) }
        ensures unchanged { OnErr result (view.IsSame self.old self.new) }
        ensures keeps { view.Keeps self.old self.new }
    {
        let number = self.push(start, place, Form::Parameter(parameter))?;
        Ok(number)
    }

    /// Adds a method that starts and stands at these bytes, and gives its number. The greatest number of nodes is want of
    /// memory too.
    pub fn push_method(&mut self, start: u32, place: u32, method: Method) -> Result<u32, AllocError>
        requires { view.MethodStands self.old (view.count self.old) method }
        ensures number { IfOk result (λ n. n ≡ view.count self.old) }
        ensures count { OnOk result (view.count self.new ≡ view.count self.old + 1) }
        ensures room { OnOk result (view.count self.old < view.most_nodes) }
        ensures made { IfOk result (λ n. view.method self.new n ≡ view.method_tree self.old n start place method) }
        ensures unchanged { OnErr result (view.IsSame self.old self.new) }
        ensures keeps { view.Keeps self.old self.new }
    {
        let number = self.push(start, place, Form::Method(method))?;
        Ok(number)
    }

    /// Adds a list of numbers. The greatest number of items is want of memory too.
    pub fn add_list(&mut self, numbers: &[u32]) -> Result<Children, AllocError>
        requires { All (view.IsBefore (view.count self.old)) numbers.now }
        ensures list { IfOk result (λ c. view.list self.new c ≡ numbers.now) }
        ensures before { IfOk result (λ c. view.AreBefore self.new (view.count self.new) c) }
        ensures count { view.count self.new ≡ view.count self.old }
        ensures unchanged { OnErr result (view.IsSame self.old self.new) }
        ensures keeps { view.Keeps self.old self.new }
    {
        let start = self.numbers.len();
        if start >= MOST_ITEMS || numbers.len() >= 0x7fff_ffff {
            return Err(AllocError);
        }
        self.numbers.extend_from_slice(numbers)?;
        Ok(Children {
            start: start as u32,
            end: start as u32 + numbers.len() as u32,
        })
    }

    /// Adds a list of arms. The greatest number of items is want of memory too.
    pub fn add_arms(&mut self, arms: &[Arm]) -> Result<Children, AllocError>
        requires { All (view.IsArmBefore (view.count self.old)) arms.now }
        ensures list { IfOk result (λ c. view.arm_list self.new c ≡ arms.now) }
        ensures before { IfOk result (λ c. view.AreArmsBefore self.new (view.count self.new) c) }
        ensures count { view.count self.new ≡ view.count self.old }
        ensures unchanged { OnErr result (view.IsSame self.old self.new) }
        ensures keeps { view.Keeps self.old self.new }
    {
        let start = self.arms.len();
        if start >= MOST_ITEMS || arms.len() >= 0x7fff_ffff {
            return Err(AllocError);
        }
        self.arms.extend_from_slice(arms)?;
        Ok(Children {
            start: start as u32,
            end: start as u32 + arms.len() as u32,
        })
    }

    /// Adds a list of arguments. The greatest number of items is want of memory too.
    pub fn add_arguments(&mut self, arguments: &[Argument]) -> Result<Children, AllocError>
        requires { All (view.IsArgumentBefore (view.count self.old)) arguments.now }
        ensures list { IfOk result (λ c. view.argument_list self.new c ≡ arguments.now) }
        ensures before { IfOk result (λ c. view.AreArgumentsBefore self.new (view.count self.new) c) }
        ensures count { view.count self.new ≡ view.count self.old }
        ensures unchanged { OnErr result (view.IsSame self.old self.new) }
        ensures keeps { view.Keeps self.old self.new }
    {
        let start = self.arguments.len();
        if start >= MOST_ITEMS || arguments.len() >= 0x7fff_ffff {
            return Err(AllocError);
        }
        self.arguments.extend_from_slice(arguments)?;
        Ok(Children {
            start: start as u32,
            end: start as u32 + arguments.len() as u32,
        })
    }

    /// Adds a list of fields of a pattern. The greatest number of items is want of memory too.
    pub fn add_fields(&mut self, fields: &[FieldPattern]) -> Result<Children, AllocError>
        requires { All (view.IsFieldBefore (view.count self.old)) fields.now }
        ensures list { IfOk result (λ c. view.field_list self.new c ≡ fields.now) }
        ensures before { IfOk result (λ c. view.AreFieldsBefore self.new (view.count self.new) c) }
        ensures count { view.count self.new ≡ view.count self.old }
        ensures unchanged { OnErr result (view.IsSame self.old self.new) }
        ensures keeps { view.Keeps self.old self.new }
    {
        let start = self.fields.len();
        if start >= MOST_ITEMS || fields.len() >= 0x7fff_ffff {
            return Err(AllocError);
        }
        self.fields.extend_from_slice(fields)?;
        Ok(Children {
            start: start as u32,
            end: start as u32 + fields.len() as u32,
        })
    }
}
