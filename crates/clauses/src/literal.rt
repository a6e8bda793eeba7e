// Literals and variables, as types of their own so that they can't be mixed.
ghost use Rattle.std.specs.Prelude.{◌≡◌, ◌-◌, ◌/◌, ◌≤◌, ◌≢◌};
ghost use Rattle.clauses.specs.Literals.{negated as opposite};

// A variable by its number from 1 on. There is no variable 0.
#[derive(Clone, Copy, PartialEq, Eq, Debug)]
pub struct Variable(pub u32);

// A literal by its code: twice its variable's number, and one more if it is negated.
#[derive(Clone, Copy, PartialEq, Eq, Debug)]
pub struct Literal(pub u32);

impl Literal {
    pub fn variable(self) -> Variable
        ensures { result.0 ≡ self.0 / 2 }
    {
        Variable(self.0 / 2)
    }

    // The other literal of the same variable; of any code, so that no caller has to know that it is one.
    pub fn negated(self) -> Literal
        ensures value { result ≡ opposite self }
        ensures variable { result.0 / 2 ≡ self.0 / 2 }
        ensures other { result.0 ≢ self.0 }
    {
        if self.0 % 2 == 0 {
            Literal(self.0 + 1)
        } else {
            Literal(self.0 - 1)
        }
    }
}

impl Variable {
    // The place of the variable in an array.
    pub fn index(self) -> usize
        ensures { result ≡ self.0 }
    {
        self.0 as usize
    }

    // The place of the variable in a model, which begins with variable 1.
    pub fn place(self) -> usize
        requires { 1 ≤ self.0 }
        ensures { result ≡ self.0 - 1 }
    {
        self.0 as usize - 1
    }
}
