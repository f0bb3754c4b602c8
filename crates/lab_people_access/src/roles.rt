//! The roles that a person may have.
ghost use Rattle.std.specs.Prelude.{◌≡◌, IfOk};
ghost use Rattle.lab_people_access.specs.Roles.{has_role, role_word, with_role, no_roles, role_list};

use lab_forms_texts::OutOfMemory;
use std::alloc::Global;

/// What a person may be in a laboratory.
#[derive(Clone, Copy, Debug, PartialEq, Eq)]
pub enum Role {
    /// Enters observations, amends them and signs as their author.
    Analyst,
    /// Reviews and rejects.
    Reviewer,
    /// Makes forms, and takes copies.
    Manager,
    /// Enrols persons, and keeps their accounts.
    Administrator,
    /// Reads all, and takes copies.
    Inspector,
}

impl Role {
    /// The roles in the order in which they are listed.
    pub const ALL: [Role; 5] = [
        Role::Analyst,
        Role::Reviewer,
        Role::Manager,
        Role::Administrator,
        Role::Inspector,
    ];

    /// The word of the role.
    pub fn word(self) -> &'static str
        ensures { result.now ≡ role_word self }
    {
        match self {
            Role::Analyst => "analyst",
            Role::Reviewer => "reviewer",
            Role::Manager => "manager",
            Role::Administrator => "administrator",
            Role::Inspector => "inspector",
        }
    }
}

/// The roles of one person: any number of them, also none.
#[derive(Clone, Copy, Debug, PartialEq, Eq)]
pub struct Roles {
    /// Whether the person is an analyst.
    pub analyst: bool,
    /// Whether the person is a reviewer.
    pub reviewer: bool,
    /// Whether the person is a manager.
    pub manager: bool,
    /// Whether the person is an administrator.
    pub administrator: bool,
    /// Whether the person is an inspector.
    pub inspector: bool,
}

impl Roles {
    /// Makes roles without any role.
    pub fn none() -> Roles
        ensures { result ≡ no_roles }
    {
        Roles {
            analyst: false,
            reviewer: false,
            manager: false,
            administrator: false,
            inspector: false,
        }
    }

    /// Returns the roles with one more.
    pub fn with(self, role: Role) -> Roles
        ensures { result ≡ with_role self role }
    {
        match role {
            Role::Analyst => Roles {
                analyst: true,
                ..self
            },
            Role::Reviewer => Roles {
                reviewer: true,
                ..self
            },
            Role::Manager => Roles {
                manager: true,
                ..self
            },
            Role::Administrator => Roles {
                administrator: true,
                ..self
            },
            Role::Inspector => Roles {
                inspector: true,
                ..self
            },
        }
    }

    /// Whether the role is one of these.
    pub fn has(&self, role: Role) -> bool
        ensures { result ≡ has_role self.now role }
    {
        match role {
            Role::Analyst => self.analyst,
            Role::Reviewer => self.reviewer,
            Role::Manager => self.manager,
            Role::Administrator => self.administrator,
            Role::Inspector => self.inspector,
        }
    }

    /// Returns the roles as a list, in the order in which they are listed. The only error is that
    /// memory ran out.
    ///
    /// # Errors
    /// Memory ran out.
    pub fn list(&self, alloc: Global) -> Result<Vec<Role>, OutOfMemory>
        ensures { IfOk result (λ list. list.items ≡ role_list self.now) }
    {
        let mut list = Vec::new(alloc);
        for role in Role::ALL {
            if self.has(role) {
                list.push(role)?;
            }
        }
        Ok(list)
    }
}
